// Document 01 as definitions, in specs/, and what 02 adds to it: what each operation answers, what it leaves in lent memory, and which
// texts are sheets. The contracts of the crates above cite these and nothing below them. There is no code here.
#![tactic(auto)]
