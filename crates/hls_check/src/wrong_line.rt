//! A line that violates the certificate format.
ghost use Rattle.std.specs.Prelude.{◌≡◌};
ghost use Rattle.hls_check_tables.specs.declared.cert_fault.CertFault.TheVariants.{Form};

use hls_check_tables::CertFault;

/// The number of a wrong line, from 1.
#[derive(Clone, Copy)]
pub struct WrongLine {
    pub line: usize,
}

impl From<WrongLine> for CertFault {
    ghost from_gives = { λ wrong e. e ≡ Form wrong.line };

    fn from(wrong: WrongLine) -> CertFault {
        CertFault::Form { line: wrong.line }
    }
}
