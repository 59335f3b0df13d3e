// Laws on lists that the kit does not have: a list by its numbers (specs/Listed.antt), a loop that fills a buffer (proofs/Filling.antt), a
// loop that copies into one (proofs/Copying.antt), a list split at its first number that is not of a kind (proofs/Splitting.antt). No code.
#![tactic(auto)]
