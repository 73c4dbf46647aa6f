use script_text::{Input, ParseError, generate, parse};
use std::alloc::Global;
use std::test::Fail;

// The line and the rule of a text's fault, as one number in decimal: the rule has its last two digits. 0 where there is none.
fn fault_of(alloc: Global, input: Input, text: &[u8]) -> u32 {
    if text.len() > 1_048_576 {
        return 1;
    }
    match parse(alloc, text, input) {
        Err(ParseError::Syntax { line, rule }) => {
            line.saturating_mul(100).saturating_add(u32::from(rule))
        }
        Err(ParseError::Memory) => 2,
        Ok(_) => 0,
    }
}

static FAULTS: [(&[u8], u32); 66] = [
    (b"", 0),
    (b"\n\n", 0),
    (b"server a 1\n\n# a comment\n   # another", 0),
    (b"  server   a 1  \r\n server a 2", 0),
    (b"server a 1\nserver b\x7f", 201),
    (b"# \xc3\xa9\n", 101),
    (b"   \t\n", 101),
    (b"server a 1\r", 101),
    (b"server a 1\r\r\n", 101),
    (b"serve a 1\n", 102),
    (b"server a\n", 102),
    (b"server a 1 1\n", 102),
    (b"server c\n", 102),
    (b"put a t r\n", 102),
    (b"--\n", 102),
    (b"sweep a 1\n", 102),
    (
        b"syncall a\nroll a 1\ncrash a 1\nseal a 1\nclosebegin a 1\ncloseend a 1\nrecover a 1\nclose a 1\nmove a 1 2\n\
get a t r\nfail a append 3\nkeep a 0\nflush a 1\n",
        1302,
    ),
    (b"queues a\nregions b\nstatus\ndrain\n", 402),
    (b"queues c\n", 103),
    (b"server c 1\n", 103),
    (b"server A 1\n", 103),
    (b"server c 0\n", 103),
    (b"server a 0\n", 104),
    (b"server a 64\nserver a 65\n", 204),
    (b"server a 01\n", 104),
    (b"server a +1\n", 104),
    (b"server a 99999999999999999999999999\n", 104),
    (b"openbegin a 4096 64\nopenbegin a 4097 64\n", 204),
    (b"deliver 4294967295\ndeliver 4294967296\n", 204),
    (b"send a 4 1 1000\nsend a 4 1\nsend a 4 1 1001\n", 304),
    (b"send a 5 1\n", 104),
    (b"show a T\n", 105),
    (b"show a aaaaaaaaaaaaaaaa\nshow a aaaaaaaaaaaaaaaaa\n", 205),
    (b"put a t R f:q@1=v\n", 105),
    (b"put a t r. f:q@1=v\nput a t. r f:q@1=v\n", 205),
    (b"table a T f/2\n", 105),
    (b"table a t f/1,g/0\ntable a t f/2\n", 206),
    (b"table a t f/1,f/0\n", 106),
    (b"table a t f/1,\n", 106),
    (b"table a t ,f/1\n", 106),
    (b"table a t f/1,,g/0\n", 106),
    (
        b"table a t a/0,b/0,c/0,d/0,e/0,f/0,g/0,h/0,i/0,j/0,k/0,l/0,m/0,n/0,o/0,p/0,q/0\n",
        106,
    ),
    (b"peer a 1 plain t,u\npeer a 1 plain t,t\n", 206),
    (b"peer a 1 plain T\n", 106),
    (b"peer a 1 Plain t,\n", 107),
    (b"peer a 9 Plain t,\n", 104),
    (b"peer a 1 plain t\npeer a 1 serial t\n", 202),
    (b"peer a 1 sync t,\n", 102),
    (b"peer a 9 serial t\n", 104),
    (b"put a t r f:q@10\n", 106),
    (
        b"put a t r f:q@18446744073709551615=v\nput a t r f:q@18446744073709551616=v\n",
        206,
    ),
    (b"put a t r f:q@01=v\n", 106),
    (b"put a t r f:q@1=\nput a t r f:q@1=v-\n", 206),
    (b"put a t r f:q@1!\nput a t r f:q@1!v\n", 206),
    (b"put a t r f:q@1=v!\n", 106),
    (b"put a t r F:q@1=v\n", 106),
    (b"put a t r f:@1=v\n", 106),
    (
        b"put a t r f:q@1=v f:p@1=v\nput a t r f:q@1=v f:q@2!\n",
        206,
    ),
    (b"put a t r f:q@1=16384*x\nput a t r f:q@1=16385*x\n", 206),
    (b"put a t r f:q@1=0*x\nput a t r f:q@1=3*-\n", 206),
    (b"put a t r f:q@1=3*xx\n", 106),
    (b"put a t r f:q@1=03*x\n", 106),
    (b"put a t R f:q@1\n", 105),
    (b"put a T R f:q@1\n", 105),
    (b"put c T R f:q@1\n", 103),
    (b"put c T R f:q@1\x1f\n", 101),
];

#[test]
fn the_first_rule_of_the_first_line_is_told(rt: HostRuntime) -> Result<(), Fail> {
    let alloc = rt.alloc();
    for (text, fault) in FAULTS.iter() {
        assert_eq!(rt; fault_of(alloc, Input::Run, text), *fault);
    }
    Ok(())
}

static LIVE_FAULTS: [(&[u8], u32); 15] = [
    (b"", 109),
    (b"server a 1\n", 209),
    (b"server a 1", 209),
    (b"server a 1\n--\n", 0),
    (b"--\nserver a 1\nput a t r f:q@1=v\n", 0),
    (b"--\n--\n", 209),
    (b"--\nserver a 1\n--\n--\n", 309),
    (b"--\n--\nserver c 1\n", 303),
    (b"-- x\n", 102),
    (b"show a t\n--\nshow a t\n", 310),
    (b"--\nshow a T\n", 210),
    (b"--\nshow a\n", 202),
    (b"get a t r\n--\nget a t r\n", 310),
    (b"fail a append 3\n--\nfail a append 3\n", 310),
    (b"keep a 0\n--\nkeep a 0\n", 310),
];

#[test]
fn a_live_script_has_one_divider(rt: HostRuntime) -> Result<(), Fail> {
    let alloc = rt.alloc();
    for (text, fault) in LIVE_FAULTS.iter() {
        assert_eq!(rt; fault_of(alloc, Input::Live, text), *fault);
    }
    Ok(())
}

static PERFORMED: [&[u8]; 39] = [
    b"server a 1",
    b"table a t f/1,g/0",
    b"openbegin a 1 1",
    b"openend a 1",
    b"closebegin a 1",
    b"closeend a 1",
    b"put a t r f:q@1=v f:p@2! g:q@3=40*x",
    b"get b t r.1",
    b"show a t",
    b"sync a 1",
    b"roll a 1",
    b"crash a 1",
    b"seal a 1",
    b"recover a 1",
    b"peer a 1 plain t",
    b"enable a 1",
    b"disable a 1",
    b"remove a 1",
    b"send a 1 1",
    b"send a 1 1 25",
    b"deliver 1",
    b"lose 1",
    b"confirm 1",
    b"claim a 1 2 1",
    b"oldqueues a",
    b"migratebegin a",
    b"migrate a 1 1",
    b"migrateend a",
    b"open a 1 1",
    b"close a 1",
    b"move a 1 2",
    b"ship a 1 1",
    b"syncall a",
    b"queues a",
    b"regions a",
    b"status",
    b"fail a append 3",
    b"fail b rename 1000000 65536",
    b"keep a 0",
];

// Commands whose words are known, and that no program performs yet.
static LATER: [&[u8]; 18] = [
    b"split a 1 m",
    b"merge a 1 2",
    b"flush a 1",
    b"compact a 1",
    b"sweep a 1",
    b"sweepremote a 1",
    b"makeserial a 1",
    b"mirror a 1",
    b"transitbegin a active",
    b"transitbegin a downgrade",
    b"transitbegin a standby",
    b"transitend a",
    b"makefolder b",
    b"promotebegin b",
    b"replay b",
    b"promoteend b",
    b"promote b",
    b"drain",
];

static BROKEN: [(&[u8], u32); 12] = [
    (b"peer a 2 serial t,u", 102),
    (b"peer b 1 sync t", 102),
    (b"close a 1 1", 102),
    (b"fail a append 0", 104),
    (b"fail a append 1000001", 104),
    (b"fail a append 1 65537", 104),
    (b"fail a write 1", 107),
    (b"fail a write 0", 107),
    (b"fail c write 0", 103),
    (b"keep a 65537", 104),
    (b"get a t", 102),
    (b"queues c", 103),
];

#[test]
fn each_command_is_read(rt: HostRuntime) -> Result<(), Fail> {
    let alloc = rt.alloc();
    for line in PERFORMED.iter() {
        assert_eq!(rt; fault_of(alloc, Input::Run, line), 0);
    }
    for line in LATER.iter() {
        assert_eq!(rt; fault_of(alloc, Input::Run, line), 102);
    }
    for (line, fault) in BROKEN.iter() {
        assert_eq!(rt; fault_of(alloc, Input::Run, line), *fault);
    }
    Ok(())
}

// So many puts of 16,384 bytes each, and a last line.
fn repeated(alloc: Global, many: u32, last: &[u8]) -> Result<u32, Fail> {
    let mut text = Vec::new(alloc);
    for _ in 0..many {
        text.extend_from_slice(b"put a t r f:q@1=16384*x\n")?;
    }
    text.extend_from_slice(last)?;
    Ok(fault_of(alloc, Input::Run, &text))
}

#[test]
fn repeated_values_stand_for_so_many_bytes(rt: HostRuntime) -> Result<(), Fail> {
    let alloc = rt.alloc();
    assert_eq!(rt;
        repeated(alloc, 1024, b"put a t r f:q@1=0*x\nput a t r f:q@1=v")?,
        0
    );
    assert_eq!(rt; repeated(alloc, 1024, b"put a t r f:q@1=1*x")?, 102_508);
    assert_eq!(rt; repeated(alloc, 1024, b"put a t r f:q@1=1*xx")?, 102_506);
    Ok(())
}

const GENERATED: &[u8] =
    b"server a 1\nserver a 2\nserver b 1\ntable a t f/1\ntable b t f/1\nopen a 1 1\nopen b 1 1\n\
peer a 1 serial t\nput a t k22 f:q@1=v1\nsync a 1\ndrain\nshow a t\nshow b t\n";

// The length of a generated script, and its bytes as one number to the base 31, below 2 ^ 64.
fn digest(alloc: Global, start: u64, size: u32) -> Result<(usize, u64), Fail> {
    let script = generate(alloc, start, size)?;
    let mut digest = 0u64;
    for byte in script.as_slice() {
        digest = digest.wrapping_mul(31).wrapping_add(u64::from(*byte));
    }
    Ok((script.len(), digest))
}

#[test]
fn the_generator_draws_its_rows(rt: HostRuntime) -> Result<(), Fail> {
    let alloc = rt.alloc();
    assert!(rt; generate(alloc, 1, 1)?.as_slice() == GENERATED);
    assert_eq!(rt;
        digest(alloc, 1, 1000)?,
        (34717, 13_562_033_947_440_226_292)
    );
    Ok(())
}
