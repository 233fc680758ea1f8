// Definitions and theorems only: the certified figure, what the certificate answers, and that no point of an axis lies further from its
// line than its figure.
#![tactic(auto)]
