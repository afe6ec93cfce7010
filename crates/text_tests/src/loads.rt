//! Load texts, good and bad.
use load_reading::hundredths;

#[test]
fn the_first_field_is_read(rt: HostRuntime) {
    for &(text, load) in &[
        ("0.42 0.30 0.20 1/123 456\n", Some(42)),
        ("0.42", Some(42)),
        ("1.50\n", Some(150)),
        ("9999999.99 ", Some(999_999_999)),
        ("0.4", None),
        ("", None),
        (".42 ", None),
        ("10000000.00 ", None),
        ("0.420 ", None),
        ("0,42 ", None),
    ] {
        assert_eq!(rt; hundredths(text.as_bytes()), load, "{text:?}");
    }
}
