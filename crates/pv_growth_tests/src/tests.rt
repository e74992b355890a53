// A configuration that has grown, ones that haven't, and texts that are none.
use pv_growth::*;
use pv_script::LineCause;
use std::test::Fail;

const BEFORE: &[u8] = b"sites 2\njournal 4096\nitem a 0 100\nitem b 1 50";

#[test]
fn items_at_the_end_and_a_higher_limit_are_growth(rt: HostRuntime) -> Result<(), Fail> {
    let later = b"sites 2\njournal 8192\nitem a 0 100\nitem b 1 50\nitem c 0 7";
    assert_eq!(rt; config_grows(rt.alloc(), BEFORE, later)?, true);
    Ok(())
}

#[test]
fn an_item_in_front_is_none(rt: HostRuntime) -> Result<(), Fail> {
    let later = b"sites 2\njournal 4096\nitem c 0 7\nitem a 0 100\nitem b 1 50";
    assert_eq!(rt; config_grows(rt.alloc(), BEFORE, later)?, false);
    Ok(())
}

#[test]
fn texts_that_are_no_configurations_are_named(rt: HostRuntime) -> Result<(), Fail> {
    let malformed = ConfigFault::Malformed {
        line: 2,
        cause: LineCause::UnknownWord,
    };
    assert_eq!(rt;
        config_grows(rt.alloc(), BEFORE, b"sites 1\nfoo").err(),
        Some(malformed)
    );
    let eventful = config_grows(rt.alloc(), b"sites 1\npump", BEFORE);
    assert_eq!(rt; eventful.err(), Some(ConfigFault::HasEvents));
    Ok(())
}
