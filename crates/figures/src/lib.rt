// Document 01's starred bench figures, and the cases of requests W7, W9 and W10 in small: each a table of theorems, mathematics only.
#![tactic(auto)]
