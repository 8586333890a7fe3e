// Theorems alone: what is promised of the executor, demand by demand, on one page: specs/Promises.antt.
#![tactic(auto)]
