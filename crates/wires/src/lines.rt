ghost use Rattle.std.specs.Prelude.{◌≡◌};
ghost use Rattle.wires.specs.Levels.{wired_of};

/// The levels of the three lines in one tick of 5 µs, `true` for high.
///
/// Each is an open-drain line: SCL and SDA (UM10204, 3.1.1), and SMBALERT# (SMBus 3.2, appendix A).
#[derive(Clone, Copy, Debug, PartialEq, Eq)]
pub struct Sample {
    pub scl: bool,
    pub sda: bool,
    pub alert: bool,
}

/// What the lines carry when these all drive them: each line is high only where nobody pulls it
/// low, so the list of no drivers leaves all lines high (UM10204, 3.1.1).
pub fn wired(driven: &[Sample]) -> Sample
    ensures { result ≡ wired_of driven.now }
{
    let mut lines = Sample {
        scl: true,
        sda: true,
        alert: true,
    };
    for each in driven {
        lines = Sample {
            scl: lines.scl && each.scl,
            sda: lines.sda && each.sda,
            alert: lines.alert && each.alert,
        };
    }
    lines
}
