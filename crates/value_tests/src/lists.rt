//! Users and lists.
use access_lists::permits;
use spool_model::UserName;

#[test]
fn users_and_lists(rt: HostRuntime) {
    for &(user, allow, deny, may) in &[
        ("ann", None, None, false),
        ("root", None, None, true),
        ("root", Some("bob"), Some("root"), true),
        ("ann", Some("bob\n"), Some(""), false),
        ("ann", Some(" ann "), Some("ann"), true),
        ("ann", Some("bob\n\tann\nroot\n"), None, true),
        ("ann", Some("ann bob"), None, false),
        ("ann", None, Some(""), true),
        ("ann", None, Some("bob\nann\n"), false),
        ("ann", None, Some("anna\nan\n"), true),
    ] {
        let user = UserName::of(user.as_bytes()).expect(&rt, user);
        let allow = allow.map(|text| text.as_bytes());
        let deny = deny.map(|text| text.as_bytes());
        assert_eq!(rt; permits(&user, allow, deny), may, "{allow:?} {deny:?}");
    }
}
