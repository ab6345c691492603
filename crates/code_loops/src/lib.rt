// What one turn of a loop, one call of a part or one test does, in every edition: definitions and laws alone, which the proofs of both editions cite.

#![tactic(auto)]
