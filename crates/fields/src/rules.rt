// The rule table.
ghost use Rattle.std.specs.Prelude.{◌≡◌, ◌<◌, pos};
ghost use Rattle.stab.specs.Rule.{rule_of};

use stab::Rule;

// What each rule uses: kind of on, kind of with, other, to and by, by alone, children.
const RULES: [Rule; 9] = [
    // 0 and, 1 or, 2 split
    Rule {
        on: 4,
        with: -1,
        other: false,
        link: false,
        split: false,
        children: 1,
    },
    Rule {
        on: 5,
        with: -1,
        other: false,
        link: false,
        split: false,
        children: 2,
    },
    Rule {
        on: -1,
        with: -1,
        other: false,
        link: false,
        split: true,
        children: 2,
    },
    // 3 unfold and, 4 unfold or
    Rule {
        on: 6,
        with: 6,
        other: true,
        link: false,
        split: false,
        children: 1,
    },
    Rule {
        on: 7,
        with: 7,
        other: true,
        link: false,
        split: false,
        children: 2,
    },
    // 5 false, 6 clash, 7 void, 8 loop
    Rule {
        on: 1,
        with: -1,
        other: false,
        link: false,
        split: false,
        children: 0,
    },
    Rule {
        on: 2,
        with: 3,
        other: false,
        link: false,
        split: false,
        children: 0,
    },
    Rule {
        on: 7,
        with: -1,
        other: false,
        link: false,
        split: false,
        children: 0,
    },
    Rule {
        on: -1,
        with: -1,
        other: false,
        link: true,
        split: false,
        children: 0,
    },
];

// The table's entry for rule z. Each is named by its own number: then none of the others is made.
pub fn rule_at(z: usize) -> Rule
    requires { z < 9 }
    ensures { result ≡ rule_of (pos z) }
{
    match z {
        0 => RULES[0],
        1 => RULES[1],
        2 => RULES[2],
        3 => RULES[3],
        4 => RULES[4],
        5 => RULES[5],
        6 => RULES[6],
        7 => RULES[7],
        _ => RULES[8],
    }
}
