//! How severe a diagnostic is (LSP 3.17, DiagnosticSeverity).

ghost use Rattle.std.specs.Prelude.{◌≡◌};
ghost use Rattle.cl_diag.specs.Severity.{severity};

/// The severity of a diagnostic of this number: 2, a warning, for tokens behind a complete directive (fault 7), and 1, an
/// error, for any other.
pub fn severity_of(number: u8) -> u8
    ensures { result ≡ severity number }
{
    if number == 7 { 2 } else { 1 }
}
