// What the operation points of a program (document 02, W-205) have to do with every other call. Demand 3 is untouched: specs/Untouched.antt. And each member of a
// closed list is a target whose closure is complete and stays in the list: specs/Members.antt. Laws alone.
#![tactic(auto)]
