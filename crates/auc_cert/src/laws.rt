//! The laws that reader and writer rest on, as contracts of functions without a body.

ghost use Rattle.std.specs.Prelude.{◌≡◌, ◌++◌, [], ℕ, List, None, true};
ghost use Rattle.auc_graph.specs.Problem.{Problem, IsProblem};
ghost use Rattle.auc_claim.specs.declared.cert.CertParts.{CertParts};
ghost use Rattle.auc_claim.specs.Spelled.{IsSpelled};
ghost use Rattle.auc_claim.specs.Claim.{fault_of};
ghost use Rattle.auc_claim.specs.InRange.{IsInRange};
ghost use Rattle.auc_cert.specs.declared.form.Form.{Form};
ghost use Rattle.auc_cert.specs.CertReading.{IsTextOf};
ghost use Rattle.auc_cert.specs.Form.{IsSpelledIn};
ghost use Rattle.auc_cert.specs.Text.{text, text_in};

/// Each certificate has one spelling in versions 1 and 2, and one in version 3, and no spelling begins another one.
pub fn no_spelling_begins_another()
    ensures usual { (c d : CertParts) (more : List ℕ) → IsSpelled c → IsSpelled d → text c ++ more ≡ text d → (c ≡ d)
        × (more ≡ []) }
    ensures large { (v w : Form) (c d : CertParts) (more : List ℕ) → IsSpelledIn v c → IsSpelledIn w d
        → text_in v c ++ more ≡ text_in w d → (v ≡ w) × (c ≡ d) × (more ≡ []) }
{}

/// What is written of a claim is a text of it, where the checker finds no fault in the claim.
pub fn faultless_claims_have_texts()
    ensures { (p : Problem) (c : CertParts) → IsProblem p → IsInRange c → fault_of p c ≡ None
        → IsTextOf true (text c) c }
{}
