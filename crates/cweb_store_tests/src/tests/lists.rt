// Builder calls as a list of values.
use super::*;

// A list with each kind of call, two of them not allowed by the state. The other seven return `Ok`, unless an
// allocation fails. A refused call may make a later one disallowed or allowed.
fn listed(alloc: Global) -> Result<Store, AllocError> {
    const CALLS: &[Call] = &[
        Call::Closes,
        Call::Occurs(b"A", How::Full, true),
        Call::Opens(PartKind::Named(NameRef(0))),
        Call::Opens(PartKind::Unnamed),
        Call::Pushes(Token::Word(b"foo")),
        Call::Pushes(Token::Blank),
        Call::Drops,
        Call::Closes,
        Call::Transliterates(200, b"cd"),
    ];
    const OK: &[bool] = &[false, true, true, false, true, true, true, true, true];
    let (answers, store) = laws::store_holds_calls_answered_ok(alloc, CALLS)?;
    for (answer, is_ok) in answers.iter().zip(OK) {
        if answer.is_ok != *is_ok {
            return Err(AllocError);
        }
    }
    Ok(store)
}

// Makes the store again if an allocation failed.
fn listed_again(alloc: Global) -> Result<Store, AllocError> {
    match listed(alloc) {
        Ok(store) => Ok(store),
        Err(_) => listed(alloc),
    }
}

#[test]
fn a_list_of_calls(rt: HostRuntime) -> Result<(), Fail> {
    let store = listed_again(rt.alloc())?;
    shows_names_and_parts(&rt, &store, "A: foo; program; macros; files 0; faults");
    shows_counts(&rt, &store, "tokens 1; bytes 6; byte 200 cd");
    Ok(())
}
