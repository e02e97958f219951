// Laws only: the acknowledge point of a plain table, what each call makes of it, and the base moved. See specs/.
#![tactic(auto)]
