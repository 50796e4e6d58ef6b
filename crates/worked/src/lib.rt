// Checks of demand 3: that it is not empty (`specs/Worked.antt`), and that wrong programs break it
// (`specs/WrongPrograms.antt`). There is no code here.
#![tactic(auto)]
