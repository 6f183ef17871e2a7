// The papers as data, in specs/: what each of them prints, with the numbers that it gives its bits, and what a category is
// made of by it. Promises: the data are whole, alike where two papers are, and read the specimens of the second
// transcription. There is no code here. Stands on codec.
#![tactic(auto)]
