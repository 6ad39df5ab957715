// The supply of power of a device, which can be made to fail at a step: a page programmed, or a block erased.
ghost use Rattle.std.specs.Prelude.{◌≡◌};
ghost use Rattle.devices.specs.Steps.{spent, taken, left_by, arming};

use flash::refusal::Refusal;

// Steady; armed, when so many steps still succeed and the next one fails with the fault; or off.
#[derive(Clone, Copy, Debug, PartialEq, Eq)]
pub enum Supply {
    Steady,
    Armed { left: usize, fault: u8 },
    Off,
}

// A failure: after so many steps, with this fault.
#[derive(Clone, Copy, Debug, PartialEq, Eq)]
pub struct Cut {
    pub after: usize,
    pub fault: u8,
}

// A call in which the power fails is refused for it.
impl From<Cut> for Refusal {
    ghost use Rattle.flash.specs.declared.refusal.Refusal.TheVariants.{NoPower};

    ghost from_gives = { λ _ refusal. refusal ≡ NoPower };

    fn from(_cut: Cut) -> Refusal {
        Self::NoPower
    }
}

impl Supply {
    // The supply after so many steps, or the failure in one of them.
    pub fn spend(self, steps: usize) -> Result<Supply, Cut>
        ensures { result ≡ spent self steps }
    {
        match self {
            Supply::Armed { left, fault } => {
                if left < steps {
                    Err(Cut { after: left, fault })
                } else {
                    Ok(Supply::Armed {
                        left: left - steps,
                        fault,
                    })
                }
            }
            Supply::Steady => Ok(Supply::Steady),
            Supply::Off => Ok(Supply::Off),
        }
    }

    // Makes so many steps. The power is off once it fails in one of them.
    pub(crate) fn take(&mut self, steps: usize) -> Result<(), Cut>
        ensures value { result ≡ taken (spent self.old steps) }
        ensures left { self.new ≡ left_by (spent self.old steps) }
    {
        let spent = self.spend(steps);
        *self = spent.unwrap_or(Supply::Off);
        spent?;
        Ok(())
    }

    // The supply armed anew, which it cannot be without power.
    pub fn arm(self, steps: usize, fault: u8) -> Result<Supply, Refusal>
        ensures { result ≡ arming self steps fault }
    {
        match self {
            Supply::Off => Err(Refusal::NoPower),
            _ => Ok(Supply::Armed { left: steps, fault }),
        }
    }
}
