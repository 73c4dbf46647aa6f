use rep_types::Status;
use std::alloc::Global;
use std::test::Fail;

// Whether the status ends the program with this code, and is told by this line.
fn is_told(alloc: Global, status: Status, code: u8, line: &str) -> Result<bool, Fail> {
    let text = format!(in alloc; "{status}")?;
    Ok(status.code() == code && text.as_str() == line)
}

#[test]
fn statuses_have_codes_and_lines(rt: HostRuntime) -> Result<(), Fail> {
    let alloc = rt.alloc();
    assert!(rt; is_told(alloc, Status::Ok, 0, "")?);
    assert!(rt; is_told(alloc, Status::BadWords, 1, "bad words")?);
    assert!(rt;
        is_told(
            alloc,
            Status::Syntax { line: 8, rule: 2 },
            2,
            "line 8: rule 2"
        )?
    );
    assert!(rt; is_told(alloc, Status::TooLong, 2, "input too long")?);
    assert!(rt; is_told(alloc, Status::ReadFault, 3, "read fault")?);
    assert!(rt; is_told(alloc, Status::WriteFault, 4, "write fault")?);
    assert!(rt; is_told(alloc, Status::Memory, 5, "out of memory")?);
    assert!(rt; is_told(alloc, Status::Full, 6, "too many records")?);
    assert!(rt;
        is_told(
            alloc,
            Status::Differs { at: 3 },
            7,
            "value differs at command 3"
        )?
    );
    Ok(())
}
