use crate::closures::Closures;
use crate::delays::Delays;
use crate::notice::{Closure, Delay};
use crate::windows::{open_from, open_until};
use refusals::notice::NoticeRefusal;
use std::test::Fail;

fn closure(link: u32, from: u32, until: u32) -> Closure {
    Closure { link, from, until }
}

#[test]
fn the_32nd_closure_stands_and_one_more_finds_no_room(rt: HostRuntime) -> Result<(), Fail> {
    let mut closures = Closures::new();
    for link in 0..32 {
        closures.up(closure(link, 5, 9))?;
    }
    assert_eq!(rt; closures.standing().len(), 32);
    assert_eq!(rt; closures.up(closure(32, 5, 9)), Err(NoticeRefusal::NoRoom));
    assert_eq!(rt; closures.standing().len(), 32);
    Ok(())
}

#[test]
fn a_closure_that_stands_is_refused_again(rt: HostRuntime) -> Result<(), Fail> {
    let mut closures = Closures::new();
    closures.up(closure(1, 5, 9))?;
    closures.up(closure(1, 5, 10))?;
    assert_eq!(rt;
        closures.up(closure(1, 5, 9)),
        Err(NoticeRefusal::AlreadyStanding)
    );
    assert_eq!(rt; closures.standing().len(), 2);
    Ok(())
}

#[test]
fn a_closure_comes_down_once(rt: HostRuntime) -> Result<(), Fail> {
    let mut closures = Closures::new();
    closures.up(closure(1, 5, 9))?;
    closures.up(closure(2, 5, 9))?;
    assert_eq!(rt;
        closures.down(closure(1, 5, 8)),
        Err(NoticeRefusal::NotStanding)
    );
    closures.down(closure(1, 5, 9))?;
    assert_eq!(rt;
        closures.down(closure(1, 5, 9)),
        Err(NoticeRefusal::NotStanding)
    );
    let left = closures.standing();
    assert!(rt; left.len() == 1);
    assert_eq!(rt; left[0], closure(2, 5, 9));
    Ok(())
}

#[test]
fn closures_that_touch_overlap_and_nest_are_followed_to_their_end(rt: HostRuntime) {
    let closures = [
        closure(1, 30, 40),
        closure(1, 10, 20),
        closure(1, 12, 15),
        closure(1, 18, 30),
        closure(2, 40, 50),
    ];
    assert_eq!(rt; open_from(&closures, 1, 9, 100), Some(9));
    assert_eq!(rt; open_from(&closures, 1, 12, 100), Some(40));
    assert_eq!(rt; open_from(&closures, 1, 12, 39), None);
    assert_eq!(rt; open_until(&closures, 1, 39), Some(9));
    assert_eq!(rt; open_until(&[closure(1, 0, 40)], 1, 39), None);
}

#[test]
fn a_delay_has_1_to_86_400_ticks(rt: HostRuntime) -> Result<(), Fail> {
    let mut delays = Delays::new();
    delays.set(Delay {
        link: 1,
        ticks: 86_400,
    })?;
    let long = Delay {
        link: 2,
        ticks: 86_401,
    };
    assert_eq!(rt; delays.set(long), Err(NoticeRefusal::NoDelay));
    assert_eq!(rt;
        delays.set(Delay { link: 1, ticks: 0 }),
        Err(NoticeRefusal::NoDelay)
    );
    assert_eq!(rt; delays.standing().len(), 1);
    Ok(())
}

#[test]
fn a_second_delay_replaces_the_first_even_when_32_stand(rt: HostRuntime) -> Result<(), Fail> {
    let mut delays = Delays::new();
    for link in 0..32 {
        delays.set(Delay { link, ticks: 60 })?;
    }
    delays.set(Delay { link: 7, ticks: 90 })?;
    let more = Delay {
        link: 32,
        ticks: 60,
    };
    assert_eq!(rt; delays.set(more), Err(NoticeRefusal::NoRoom));
    let standing = delays.standing();
    assert!(rt; standing.len() == 32);
    assert_eq!(rt; standing[7], Delay { link: 7, ticks: 90 });
    delays.clear(7)?;
    assert_eq!(rt; delays.clear(7), Err(NoticeRefusal::NotStanding));
    delays.set(more)?;
    assert_eq!(rt; delays.standing().len(), 32);
    Ok(())
}
