//! The calls, types, fields and variants that users of the crates rely on, crate by crate. If one
//! of them is renamed, removed or moved to another crate, this module does not compile. Its test
//! calls none of them: their behaviour is proved, or tested elsewhere.

mod formats;
mod meanings;
mod values;

#[test]
fn each_crate_has_its_names() {
    values::name_base();
    values::name_depex();
    values::name_hob();
    formats::name_head();
    formats::name_file();
    formats::name_section();
    meanings::name_tree();
    meanings::name_canon();
    meanings::name_program();
}
