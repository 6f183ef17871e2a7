// The protocol (docs/PROTOCOL.md) as a definition: the answer to every line, of the words that protocol and replies define.
// Promises: the answers of the worked lines, and that every answer has room in the buffer of 4,096 octets. There is no code here.
#![tactic(auto)]
