// The algebra under the codes: sums, polynomials, systems of equations and symmetric grids, over symbols.
// It has no code. Definitions stand in specs/, laws in proofs/; README.md says in what order to read them.
#![tactic(auto)]
