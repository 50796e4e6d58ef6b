// Worked runs of two clients (document 02, W10), and programs that its claim shuts out: no code.
#![tactic(auto)]
