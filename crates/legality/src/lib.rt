// Every move of a reply is a legal update, and what holds while we reply: definitions and laws, in specs/.
#![tactic(auto)]
