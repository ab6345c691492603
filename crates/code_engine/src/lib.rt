// What an engine of the code may rely on, in every edition: definitions and laws alone.

#![tactic(auto)]
