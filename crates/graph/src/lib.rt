// Mathematics only: networks, paths, best paths, key links, entries and the walk, for any number of nodes and links,
// any positive weights and any set of links taken out. There is no code here: specs/ says it, proofs/ proves it.
#![tactic(auto)]
