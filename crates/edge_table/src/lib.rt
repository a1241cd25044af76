// Nothing runs here: the edges of document 01 that are proved, as one table.

#![tactic(auto)]
