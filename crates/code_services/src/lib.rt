// What the services of the code answer and leave, in every edition, and demands 2 and 3: definitions and laws alone.

#![tactic(auto)]
