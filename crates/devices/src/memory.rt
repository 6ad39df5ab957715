// What programs, erases and failures do to the bytes of a device.
ghost use Rattle.std.specs.Prelude.{◌≡◌, ◌-◌, ◌++◌, length, take, drop, replicate};
ghost use Rattle.devices.specs.Memory.{ored};

// Fills the part with what an erase leaves.
pub fn wipe(part: &mut [u8])
    ensures { part.new ≡ replicate (length part.old) 255 }
{
    part.fill(0xff);
}

// Sets the fault's bits in each byte.
pub fn spoil(part: &mut [u8], fault: u8)
    ensures { part.new ≡ ored fault part.old }
{
    for x in part.iter_mut() {
        *x |= fault;
    }
}

// Sets the fault's bits in the last page of the part.
pub fn tear(part: &mut [u8], page: usize, fault: u8)
    ensures { part.new ≡ take (length part.old - page) part.old ++ ored fault (drop (length part.old - page) part.old) }
{
    let whole = part.len().saturating_sub(page);
    spoil(&mut part[whole..], fault);
}
