ghost use Rattle.std.specs.Prelude.{◌≡◌, ◌<◌, ◌^◌, ℕ, List, length, Option, Result};
ghost use Rattle.lrat_check.specs.declared.line.Line.{Line};
ghost use Rattle.lrat_text.specs.declared.cert.CertError.{CertError};
ghost use Rattle.lrat_text.specs.declared.cert.CertStep.{CertStep};
ghost use Rattle.lrat_text.specs.Text.{TextLine, cert_text};
ghost use Rattle.lrat_text.specs.Reading.{Reading, Reads, Next, Told};
ghost use Rattle.lrat_text.specs.Runs.{IsLast, MayRead, IsCertificate, start, names_of, steps_of};
ghost use Rattle.lrat_text.specs.Written.{PartsFit};

/// A line reads as at most one. So each answer of a reader comes exactly where it is stated, want of memory aside.
pub fn one_reading()
    ensures { (line : List ℕ) (s t : Option TextLine) → Reads line s → Reads line t → s ≡ t }
{}

/// After a refusal or the end a further call with the same names answers the same, want of memory aside, which also
/// comes again.
pub fn again()
    ensures { (names : List (List ℕ)) (s t u : Reading) (r q : Result CertStep CertError) → Next names s r t → IsLast r → Next names t q u → Told r q }
{}

/// What is written of obligations may be read back as them: the calls with their names may answer their parts one
/// after the other and then the end, and by the other laws nothing else, want of memory aside.
pub fn read_back()
    ensures { (parts : List (List ℕ × List Line)) → PartsFit parts → length parts < 2 ^ 32 → MayRead (names_of parts) (start (cert_text parts)) (steps_of 0 parts) }
{}

/// What is read to its end is the certificate of obligations with these names, and the parts that were answered are
/// its parts.
pub fn read_whole()
    ensures { (names : List (List ℕ)) (bytes : List ℕ) (steps : List CertStep) → length names < 2 ^ 32 → MayRead names (start bytes) steps → IsCertificate names bytes steps }
{}
