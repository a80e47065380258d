//! Alarms, raised and not.
use super::Alarm;
use std::process::Abort;
use std::test::Fail;
use std::time::Duration;

#[test]
fn an_alarm_stays_raised(rt: HostRuntime) -> Result<(), Fail> {
    let (alarm, other) = (Alarm::new()?, Alarm::new()?);
    let short = Duration::from_millis(1);
    assert!(rt; !alarm.is_raised_within(short));
    other.raise();
    assert!(rt; !alarm.is_raised_before(other.descriptor));
    alarm.raise();
    alarm.raise();
    assert!(rt; alarm.is_raised_within(Duration::from_secs(60)));
    assert!(rt; alarm.is_raised_before(other.descriptor));
    Ok(())
}

#[test]
fn nobody_hears_an_alarm_without_a_counter(rt: HostRuntime) {
    let alarm = Alarm::unheard();
    alarm.raise();
    assert!(rt; !alarm.is_raised_within(Duration::from_millis(1)));
}
