// Writes the descriptor table of a list of globals.
#![tactic(auto)]

ghost use Rattle.std.specs.Prelude.{◌≡◌, cond, ◌+◌, ◌*◌, ◌≤◌, ◌<◌, length, IfOk};
ghost use Rattle.rules.specs.Outcome.{good, passed};
ghost use Rattle.rules.specs.Limits.{address_limit, granule};
ghost use Rattle.rules.specs.Memory.{put};
ghost use Rattle.rules.specs.Writer.{uleb, descriptor_of, table_of, list_check};
ghost use Rattle.rules.specs.Answers.{of_list_result};
ghost use Rattle.demands.specs.Writer.{WriteCall};
ghost use Rattle.writer.specs.Faults.{Judged, measured};

use rules::{ADDRESS_LIMIT, GRANULE, ListReason, ListRefusal, RADIX, SIZES};

// Bytes of a descriptor, at most.
const DESCRIPTOR_LIMIT: usize = 14;

// A list of globals: the address and the byte size of each.
#[derive(Clone, Copy)]
pub struct Globals<'a> {
    pub addresses: &'a [u64],
    pub sizes: &'a [u64],
    pub ghost equal: { length addresses.now ≡ length sizes.now },
}

// A list of which every global passes its checks.
#[derive(Clone, Copy)]
pub struct Checked<'a> {
    pub globals: Globals<'a>,
    pub ghost passed: { list_check 0 0 globals.addresses.now globals.sizes.now ≡ good tt },
}

// The first fault of a global after one that ends at end.
fn judge(end: u64, address: u64, size: u64) -> Result<(), ListReason>
    ensures { Judged end address size result }
{
    if size == 0 {
        return Err(ListReason::NoSize);
    }
    if size % GRANULE != 0 {
        return Err(ListReason::NoMultiple);
    }
    if address % GRANULE != 0 {
        return Err(ListReason::NoMultiple);
    }
    if address < end {
        return Err(ListReason::EarlyStart);
    }
    if !reads::sum_within(address, size, ADDRESS_LIMIT) {
        return Err(ListReason::HighEnd);
    }
    Ok(())
}

// Bytes of a number, from the place of its highest bit: seven bits a byte.
fn uleb_length(value: u64) -> u64
    requires { 0 < value }
    ensures { result ≡ length (uleb value) }
{
    (63 - u64::from(value.leading_zeros())) / 7 + 1
}

// Bytes of a descriptor. Low bits below 8 do not change how many bytes the first number has.
fn descriptor_length(distance: u64, granules: u64) -> u64
    requires filled { 0 < granules }
    requires small { granule * distance + granule * granules ≤ address_limit }
    ensures { result ≡ length (descriptor_of distance granules) }
{
    let first = uleb_length(SIZES * distance + 1);
    if granules < SIZES {
        return first;
    }
    first + uleb_length(granules - 1)
}

// The same where it is to be counted, else 0.
fn counted_length(counted: bool, distance: u64, granules: u64) -> u64
    requires filled { 0 < granules }
    requires small { granule * distance + granule * granules ≤ address_limit }
    ensures { result ≡ cond counted (length (descriptor_of distance granules)) 0 }
{
    if counted {
        return descriptor_length(distance, granules);
    }
    0
}

impl<'a> Globals<'a> {
    // Checks each global in turn; the table's length where it is to be counted, else 0.
    fn measure(self, counted: bool) -> Result<u64, ListRefusal>
        ensures { of_list_result result ≡ measured self.entry.addresses.now self.entry.sizes.now counted 0 0 0 }
    {
        let Globals { addresses, sizes } = self;
        let mut end: u64 = 0;
        let mut total: u64 = 0;
        for (i, &address) in addresses.iter().enumerate() {
            let size = sizes[i];
            if let Err(reason) = judge(end, address, size) {
                return Err(reason.at(i as u64));
            }
            total += counted_length(counted, (address - end) / GRANULE, size / GRANULE);
            end = address + size;
        }
        Ok(total)
    }

    // The checks of each global alone, for others that take such lists.
    pub fn check(self) -> Result<Checked<'a>, ListRefusal>
        ensures checked { passed (of_list_result result) ≡ list_check 0 0 self.entry.addresses.now self.entry.sizes.now }
        ensures same { IfOk result (λ c. c.globals ≡ self.entry) }
    {
        self.measure(false)?;
        Ok(Checked { globals: self })
    }
}

// A number from a position on; the position after it.
fn write_uleb(buffer: &mut [u8], from: usize, value: u64) -> usize
    requires { from + length (uleb value) ≤ length buffer.old }
    ensures moved { result ≡ from + length (uleb value) }
    ensures written { buffer.new ≡ put buffer.old from (uleb value) }
{
    let mut at = from;
    let mut v = value;
    while RADIX <= v {
        buffer[at] = (v % RADIX + RADIX) as u8;
        v /= RADIX;
        at += 1;
    }
    buffer[at] = v as u8;
    at + 1
}

// A descriptor from a position on; the position after it.
fn write_descriptor(buffer: &mut [u8], at: usize, distance: u64, granules: u64) -> usize
    requires small { granule * distance + granule * granules ≤ address_limit }
    requires fits { at + length (descriptor_of distance granules) ≤ length buffer.old }
    ensures moved { result ≡ at + length (descriptor_of distance granules) }
    ensures written { buffer.new ≡ put buffer.old at (descriptor_of distance granules) }
{
    if granules < SIZES {
        return write_uleb(buffer, at, SIZES * distance + granules);
    }
    let next = write_uleb(buffer, at, SIZES * distance);
    write_uleb(buffer, next, granules - 1)
}

impl<'a> Checked<'a> {
    // Writes the table over the front of the buffer; its length.
    fn write(self, buffer: &mut [u8]) -> usize
        requires { length (table_of self.globals.addresses.now self.globals.sizes.now) ≤ length buffer.old }
        ensures counted { result ≡ length (table_of self.entry.globals.addresses.now self.entry.globals.sizes.now) }
        ensures written { buffer.new ≡ put buffer.old 0 (table_of self.entry.globals.addresses.now self.entry.globals.sizes.now) }
    {
        let Globals { addresses, sizes } = self.globals;
        let mut end: u64 = 0;
        let mut at: usize = 0;
        for (i, &address) in addresses.iter().enumerate() {
            let size = sizes[i];
            at = write_descriptor(buffer, at, (address - end) / GRANULE, size / GRANULE);
            end = address + size;
        }
        at
    }
}

// Writes the table of globals, by addresses and byte sizes, to the front of a buffer, and answers its length. A refusal has the
// index of the global, and writes nothing. In an ample buffer the length need not be known before.
pub fn write_table(addresses: &[u64], sizes: &[u64], buffer: &mut [u8]) -> Result<u64, ListRefusal>
    ensures { WriteCall addresses.now sizes.now buffer.old buffer.new (of_list_result result) }
{
    if addresses.len() != sizes.len() {
        return Err(ListReason::UnequalLists.at(0));
    }
    let globals = Globals { addresses, sizes };
    let ample = addresses.len() <= buffer.len() / DESCRIPTOR_LIMIT;
    let needed = globals.measure(!ample)?;
    if (buffer.len() as u64) < needed {
        return Err(ListReason::SmallBuffer.at(0));
    }
    let checked = Checked { globals };
    Ok(checked.write(buffer) as u64)
}
