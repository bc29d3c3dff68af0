// Padding made zero again in a file that holds a frame, and what stood there reported (change request K8): the definitions and what is proved of them.
// There is no code here; the call is in `padding_calls`.
#![tactic(auto)]
