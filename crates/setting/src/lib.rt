// What an operation's caller chooses, and the sizes that follow from it. There is no code here.
#![tactic(auto)]
