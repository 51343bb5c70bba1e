// What three calls in a row promise together. There is no code here: the entries are `subdivision::subdivide` and `triangulation::triangulate`,
// and the theorem stands over their contracts (specs/Calls, proofs/Through).
#![tactic(auto)]
