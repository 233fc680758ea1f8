// Definitions and theorems only: over exact fractions the smoother's steps equal the definitions of Piegl and Tiller, The NURBS Book.
#![tactic(auto)]
