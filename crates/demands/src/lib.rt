// The three demands, in specs/: Demands has each sentence of the mission as statements of a program, Terms their words,
// Visitors, Members, Pressure, Leftovers and Rebuilding what 02 asks of the visitors' copy, of two members who save in
// turn, of the sheet's pressure and exact angle, and of reading it back.
// Promises: the program that scope and guess define meets them (Kept). There is no code here. Stands on papers, layout,
// scope and guess.
#![tactic(auto)]
