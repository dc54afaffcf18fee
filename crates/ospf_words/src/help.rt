//! What `--help` says below the words of each command.

// What `--help` says below the commands.
pub(crate) const HELP: &str = "Exit status:
  0  done
  1  `failures --strict` found a failure that cuts off a prefix, `diff` a route that
     is lost, an `expect` of a script was not met, or `sim --strict` refused a line
  2  usage error
  3  the input was refused
  4  memory ran out
  5  a file or a stream failed

Examples:
  ospfd lsas < lsas.txt
  ospfd table 1.1.1.1 192.168.2.9 < lsas.txt
  ospfd path 1.1.1.1 192.168.2.9 < lsas.txt
  ospfd edit --down 2.2.2.2 < lsas.txt > after.txt
  ospfd diff lsas.txt after.txt
  ospfd check first.toml second.toml
  ospfd sim script first.toml second.toml
  ospfd run 60 first.toml second.toml
";

// What `table --help` says below its words.
pub(crate) const TABLE_HELP: &str = "Output:
  PREFIX COST HOPS            a line for each route; a next hop is one of
      attached                the prefix is on the router itself
      LOCAL>ROUTER            out of the point-to-point interface LOCAL
      LOCAL>ROUTER@ADDRESS    out of the broadcast interface LOCAL, to ADDRESS
  lookup ADDRESS PREFIX COST HOP, or lookup ADDRESS none, for each ADDRESS
If ROOT is `all`, each router's table follows a line
  router R
With --without it is the table after a failure, by its name in `failures`: a link
R-S@SUBNET (or SUBNET alone), links R-S, an interface R@NETWORK, a network @NETWORK or
a router R; or R@PREFIX, an interface to a stub network.
With --json it is one array, with an object for each route, or if ROOT is `all` for
each router. Neither `all` nor --json can be combined with ADDRESS or --without.
With --json=2 a line says what was read and warned of, and then an object for each
table has its routes, with each hop in parts, and its lookups. It cannot be combined
with --json or --without.

Exit status:
  0  done; if there is no router-LSA of ROOT, standard error says so
  2  usage error, not an address, or a NAME that does not exist in the area
  3  a line was refused: its number and fault are on standard error
  4  memory ran out
  5  standard input was not read, or standard output not written

Examples:
  ospfd table 1.1.1.1 192.168.2.9 < lsas.txt
  ospfd table 1.1.1.1 --without 2.2.2.2 --without @10.1.0.3 < lsas.txt
  ospfd table all < lsas.txt
  ospfd table 1.1.1.1 --json < lsas.txt
  ospfd table 1.1.1.1 192.168.2.9 --json=2 < lsas.txt
";

// What `lsas --help` says.
pub(crate) const LSAS_HELP: &str = "Output:
  router R age N number N sum N [flags LETTERS]
                              a router-LSA, and a line for each of its links:
    router S from ADDRESS cost N
    network ADDRESS from ADDRESS cost N
    stub PREFIX cost N
    virtual S passed over
  network PREFIX of ADDRESS by R age N number N sum N
                              a network-LSA, and a line for each attached router:
    router S
With --dot it is a drawing for Graphviz, and with --json one array, with an object for
each LSA.
A link or router is `one-way` if the LSA at its other end does not list it;
a network-LSA is `unused` if another with its Link State ID is used in its place.
The flags of a router-LSA: B an area border router, E an AS boundary router, V an
endpoint of a virtual link, W a wildcard multicast receiver.

Exit status:
  0  done
  2  usage error
  3  a line was refused: its number and fault are on standard error
  4  memory ran out
  5  standard input was not read, or standard output not written

Examples:
  ospfd lsas < lsas.txt
  ospfd lsas --dot < lsas.txt | dot -Tsvg > area.svg
";

// What `path --help` says below its words.
pub(crate) const PATH_HELP: &str = "Output:
  R HOP cost N hop I of N     a line for each router on the path: the next hop that it
                              takes, the cost of this link, and which of its next
                              hops that is, from 0
  PREFIX cost N arrived       the prefix that was reached, and the cost of the path
  R no route                  the last line if a router has no route
Each CHOICE selects a next hop of one router, in turn, modulo their number.

Exit status:
  0  done; if there is no router-LSA of FROM, standard error says so
  2  usage error, or not an address
  3  a line was refused: its number and fault are on standard error
  4  memory ran out
  5  standard input was not read, or standard output not written

Example:
  ospfd path 1.1.1.1 192.168.2.9 0 1 < lsas.txt
";

// What `failures --help` says below its words.
pub(crate) const FAILURES_HELP: &str = "Output:
  FAILURE cut N gone N cost N hops N
                              a line for each failure, the worst first: how many
                              prefixes are cut off, are no longer advertised, cost
                              more, or have other next hops
  with --each a line for each route that changes, before the line of its failure:
  FAILURE cut PREFIX          no longer reachable, though still advertised
  FAILURE gone PREFIX         no longer advertised by any router
  FAILURE cost PREFIX OLD>NEW HOPS
  FAILURE hops PREFIX COST HOPS
If ROOT is `all`, these are totals over all routers, ` routers N` is the number of
routers where anything changes, and the line of a route begins with its router.
With --json it is one array, with an object for each failure. With --json=2 a line says
what was read, and each line after it is an object, the worst harm first.
With --harm the line of a failure is, the worst first,
  FAILURE lost N rerouted N rise N own N
                              how many prefixes are lost, though still advertised;
                              cost more or have other next hops; the worst rise of a
                              cost; and how many are lost with what fails itself
A failure is one of
  R-S@SUBNET                  a link between two routers
  R:S@SUBNET                  the end of such a link at R, with --carrier switch
  R-S                         all links between two routers, if none has a subnet
  R@NETWORK                   a router's interface to a network
  @NETWORK                    a network
  R                           a router
CARRIER says what fails together:
  direct                      cables: a router takes down its links at both ends, and a
                              network of two routers is one cable
  switch                      a switch in each link: its two ends fail one by one
  process                     only the OSPF process of a router stops; if not given

Exit status:
  0  done
  1  with --strict: a failure cuts off a prefix, or there is no router-LSA of ROOT
  2  usage error, or ROOT is not an address
  3  a line was refused, or with `direct` a router has too many links: its number and
     fault, or the router, are on standard error
  4  memory ran out
  5  standard input was not read, or standard output not written

Examples:
  ospfd failures 1.1.1.1 < lsas.txt
  ospfd failures --strict all < lsas.txt
  ospfd failures --carrier direct all < lsas.txt
";

// What `edit --help` says below its words.
pub(crate) const EDIT_HELP: &str = "Output:
  LSA                         a line in hexadecimal for each LSA of the area after the
                              changes, as `table`, `lsas` and `diff` read them
Each option can be given more than once, and at least one is needed. All names are of
the area as it is read. Parts go down first, then costs change, then routers drain.
A NAME is one of
  R-S@SUBNET or SUBNET        a link between two routers
  R-S                         all links between two routers, if none has a subnet
  R@NETWORK, @NETWORK, R      an interface to a network, a network, or a router
  R@PREFIX                    an interface to a stub network
A CHANGE is one of
  R@ADDRESS=COST              the cost of the interface of R with this address
  R-S=COST                    the cost of the links from R to S, but not back
and COST is 1 to 65535. The links of a drained ROUTER to routers and networks cost
65535 (RFC 6987): others send packets through it only if there is no other path.

Exit status:
  0  done
  2  usage error, or a word that names nothing in the area
  3  a line was refused, or a router has too many links to change: standard error says
     which
  4  memory ran out
  5  standard input was not read, or standard output not written

Examples:
  ospfd edit --down 10.0.0.0/30 --drain 3.3.3.3 < lsas.txt > after.txt
  ospfd edit --cost 1.1.1.1@10.0.0.1=20 --cost 2.2.2.2-1.1.1.1=20 < lsas.txt
";

// What `diff --help` says below its words.
pub(crate) const DIFF_HELP: &str = "Output:
  - NAME, + NAME              what went and what came, by its name in `failures`
  cost R ADDRESS to S: OLD -> NEW
                              an interface at another cost
  R lost PREFIX cost N via HOPS
                              a route of R that AFTER does not have
  R gained PREFIX cost N via HOPS
                              a route of R that BEFORE does not have
  R longer PREFIX cost N via HOPS -> cost N via HOPS
                              a route of R that costs more; also `shorter`
  R rerouted PREFIX cost N via HOPS -> via HOPS
                              a route of R with other next hops at the same cost
  routes: N lost, N gained, N longer, N shorter, N rerouted, at N routers
                              how many these are, as the last line

Exit status:
  0  done, and no route is lost
  1  a route is lost
  2  usage error, or ROUTER is not an address
  3  a line was refused: its file, number and fault are on standard error
  4  memory ran out
  5  a file or standard input was not read, or standard output not written

Examples:
  ospfd diff before.txt after.txt
  ospfd edit --down 2.2.2.2 < lsas.txt | ospfd diff --root 1.1.1.1 lsas.txt -
";

// What `check --help` says below its words.
pub(crate) const CHECK_HELP: &str = "Output:
  FILE: ok                    on standard output
  FILE: C5 ZeroCost           on standard error: its first fault, by number; with
                              --explain, further lines say what to do about it,
                              with --all about every fault of the file
  FILE: not read              on standard error; the command ends
  FILE: A5 Hello: interface 0: hello 5, OTHER: interface 0: hello 10
                              with --area, on standard error: a fault between
                              files that are accepted one by one
With --json the files are checked against each other, as with --area, and the faults
and notes between them are one array on standard output. With --json=2 standard output
has a line about the input, and then an object for each file, with all its faults and
warnings; with --area an object for each fault and note between them follows.

Exit status:
  0  all files are accepted
  2  usage error
  3  a file was refused, or there is a fault between files
  4  memory ran out
  5  a file was not read, or standard output not written

Examples:
  ospfd check --explain first.toml second.toml
  ospfd check --json=2 --area first.toml second.toml
";

// What `sim --help` says below its words.
pub(crate) const SIM_HELP: &str = "Lines of a script:
  start R DD [FLOOR]          start the router R, with its first DD sequence number
                              and, in eight hexadecimal digits, the number above
                              which its LS sequence numbers begin
  stop R                      stop it; it forgets everything
  tick R                      let a second pass at it
  up R LINK, down R LINK      bring a link of it up or down
  deliver N R LINK            deliver packet N to it on a link
  start all, up all, down all the same at each router
  cut ADDRESS, mend ADDRESS   bring all links to the network of the address down or up
  round COUNT [MOST]          COUNT times: a tick each, then deliver all packets
  batch COUNT                 the same for many routers, each of which takes all
                              that waits for it at once
  settle MAX                  at most MAX rounds, until the area has converged
  loss PERCENT NUMBER [ADDRESS]
                              from here on lose PERCENT of all deliveries at random;
                              NUMBER is the seed; only on the network of ADDRESS
  random NUMBER COUNT         COUNT random events; NUMBER is the seed
  neighbours R, listing R, lsas R, table R, floor R
                              print what the router knows
  why R LINK [NEIGHBOUR]      print what a link waits for
  why headline R              print whether all routers that R reaches run and have
                              the same LSDB, or which one does not
  datagrams R [MOST]          print the last packets that a round offers to it
  drops R                     print how many it has dropped, by link and cause
  walk R ADDRESS [CHOICE..]   print the path from R to ADDRESS
  label on, label off         print headings, or no longer
  expect full R S, expect neighbour R S STATE, expect no neighbour R LINK,
  expect dr R LINK ADDRESS [BACKUP], expect route R PREFIX COST [HOP..],
  expect no route R PREFIX, expect walk R ADDRESS arrived [COST],
  expect agree, expect settled, expect headline [R]
                              print what was found if it is not so
  say WORD..                  print the words; everything after # is a comment
With `-` as SCRIPT each line of standard input is answered before the next is read,
and a line that is not a command is skipped.

Exit status:
  0  the script has run; lines that were refused are on standard error
  1  the script has run, and an `expect` was not met or, with --strict, a line was
     refused
  2  usage error, or a file would be overwritten
  3  a configuration was refused, two have the same Router ID, or a line of a script
     file is not a command
  4  memory ran out
  5  a file or standard input was not read, or a file or standard output not written

Example:
  ospfd sim script first.toml second.toml
";

// What `run --help` says below its words.
pub(crate) const RUN_HELP: &str = "Output at the end, for each router in the order of the files:
  router R                    its Router ID
  PREFIX COST HOPS            its routing table, a line for each route, as in `table`
  lookup ADDRESS ..           with --lookup, the route of the address
  LINK R STATE                with --neighbours, a line for each neighbor: the link,
                              its Router ID and its state
  KIND ID R NUMBER SUM        with --listing, a line for each LSA: router or network,
                              Link State ID, Advertising Router, LS sequence
                              number, checksum
  HEX                         with --lsdb, a line for each LSA, all of it, as `table`
                              reads them
  drops LINK CAUSE N          with --drops, how many packets were dropped, and why
  floor NUMBER                with --floor, the highest sequence number it has used
  FILE: U2 Send               on standard error, in place of these, if it failed
With --every N, every N ticks of a router, its table after a line
  router R tick TICK
`forever` runs until it is killed, or with --until-eof until standard input ends.

Exit status:
  0  all routers ran to the end
  2  usage error, not an address, or a file would be overwritten
  3  the floor or a configuration was refused, two configurations have the same Router
     ID, or an interface has no port
  4  memory ran out
  5  a file was not read, a socket was not created, or a router or a stream failed

Example:
  ospfd run --tick 100 --lookup 192.168.2.9 60 first.toml second.toml
  ospfd run --until-eof --every 10 forever first.toml
";
