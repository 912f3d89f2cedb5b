// The bench sheet of document 01: its rows marked P as one table of cases under a single statement. There is no code here.
#![tactic(auto)]
