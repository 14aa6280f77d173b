// No code: trees of a grammar, their heights, and the events of rounds, in specs/; what follows from them, in proofs/.
#![tactic(auto)]
