// How answers and records cross to C: the word that a function answers, and the array that a record is.
// Definitions and laws only, for exports. Stands on scope's and guess's definitions, and on longest for how long a sheet can be.
#![tactic(auto)]
