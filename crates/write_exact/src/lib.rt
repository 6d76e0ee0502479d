// Theorems and no code: numbers, lines and texts are read exactly where the bytes stand that writing them gives.
#![tactic(auto)]
