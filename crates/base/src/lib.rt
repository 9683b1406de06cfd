// What every crate uses: the definitions and laws in specs/, of tests, choices, and loops over ids. There is no code here.
#![tactic(auto)]
