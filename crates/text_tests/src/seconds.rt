//! Seconds and minutes at the edges of the range, from GNU date.
use host_calls::{LAST_MINUTE, LAST_SECOND, is_clock_second, minute_at};

#[test]
fn edges_of_the_range(rt: HostRuntime) {
    assert_eq!(rt; LAST_SECOND, 253_370_764_799);
    for &(second, minute) in &[
        (0, 0),
        (59, 0),
        (60, 1),
        (1_735_689_600, 28_928_160),
        (253_370_764_739, 4_222_846_078),
        (253_370_764_799, LAST_MINUTE),
    ] {
        assert!(rt; is_clock_second(second));
        assert_eq!(rt; minute_at(second), minute);
    }
    for &second in &[i64::MIN, -1, 253_370_764_800, i64::MAX] {
        assert!(rt; !is_clock_second(second));
    }
}
