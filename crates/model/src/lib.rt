// What sources, option sets and plans mean, in specs/, and the laws of these meanings, in proofs/. There is no code here.
#![tactic(auto)]
