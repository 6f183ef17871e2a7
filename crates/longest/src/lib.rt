// The longest sheet: how many octets it has, that none has more, and one that has as many.
// Definitions and theorems only. Stands on scope's sheet and on what text says of decimals.
#![tactic(auto)]
