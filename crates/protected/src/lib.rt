// Theorems alone: a protected line opens its submenu only after its own digits.
#![tactic(auto)]
