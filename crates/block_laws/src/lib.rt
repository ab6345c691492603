// What the engine over blocks owes and may rely on: definitions and laws alone.

#![tactic(auto)]
