// Edges and vertices, their peeling, the values of the vertices and the lines, over any arity and any edges. It knows nothing of codes, sums or files. No code.
#![tactic(auto)]
