// What can be relied on: the theorems that join the planner and the judge. There is no code here.

#![tactic(auto)]
