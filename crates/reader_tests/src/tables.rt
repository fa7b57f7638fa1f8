//! Lines and operations, each with the fault that reading gives, or `ok`, or with what it gives: a row a line, with ` ~ ` between.

/// Operations that add switches and routers.
pub(crate) const SWITCH: &str = r#"{"add":"switch","name":"s0"} ~ ok
{"add":"switch","name":"0_.:-Z"} ~ ok
{"add":"switch","name":"nnnnnnnnnnnnnnnnnnnnnnnnnnnnnnnnnnnnnnnnnnnnnnnnnnnnnnnnnnnnnnnn"} ~ ok
{"add":"switch"} ~ MissingField name
{"add":"switch","name":5} ~ WrongKind name
{"add":"switch","name":""} ~ OutOfRange name
{"add":"switch","name":"a b"} ~ OutOfRange name
{"add":"switch","name":"nnnnnnnnnnnnnnnnnnnnnnnnnnnnnnnnnnnnnnnnnnnnnnnnnnnnnnnnnnnnnnnnn"} ~ OutOfRange name
{"add":"switch","name":"é"} ~ OutOfRange name
{"add":"switch","name":null} ~ WrongKind name
{"add":"switch","name":["s0"]} ~ WrongKind name
{"add":"switch","name":"s0","chassis":"hv1"} ~ UnknownField chassis
{"add":"router","name":"r0"} ~ ok
{"add":"router"} ~ MissingField name
{"add":"router","name":5} ~ WrongKind name
{"add":"router","name":"r/0"} ~ OutOfRange name
{"add":"router","name":"r0","chassis":"hv1"} ~ ok
{"add":"router","name":"r0","chassis":"nnnnnnnnnnnnnnnnnnnnnnnnnnnnnnnnnnnnnnnnnnnnnnnnnnnnnnnnnnnnnnnn"} ~ ok
{"add":"router","name":"r0","chassis":5} ~ WrongKind chassis
{"add":"router","name":"r0","chassis":""} ~ OutOfRange chassis
{"add":"router","name":"r0","chassis":"nnnnnnnnnnnnnnnnnnnnnnnnnnnnnnnnnnnnnnnnnnnnnnnnnnnnnnnnnnnnnnnnn"} ~ OutOfRange chassis
{"add":"router","name":"r0","chassis":null} ~ WrongKind chassis
{"add":"router","name":"r0","mac":"0a:00:00:00:00:01"} ~ UnknownField mac"#;

/// Operations that add router ports.
pub(crate) const ROUTER_PORT: &str =
    r#"{"add":"router_port","name":"rp","router":"r0","mac":"0a:00:00:00:00:fe","networks":["10.0.0.254/24"]} ~ ok
{"add":"router_port","router":"r0","mac":"0a:00:00:00:00:fe","networks":["10.0.0.254/24"]} ~ MissingField name
{"add":"router_port","name":5,"router":"r0","mac":"0a:00:00:00:00:fe","networks":["10.0.0.254/24"]} ~ WrongKind name
{"add":"router_port","name":"r p","router":"r0","mac":"0a:00:00:00:00:fe","networks":["10.0.0.254/24"]} ~ OutOfRange name
{"add":"router_port","name":"rp","mac":"0a:00:00:00:00:fe","networks":["10.0.0.254/24"]} ~ MissingField router
{"add":"router_port","name":"rp","router":5,"mac":"0a:00:00:00:00:fe","networks":["10.0.0.254/24"]} ~ WrongKind router
{"add":"router_port","name":"rp","router":"","mac":"0a:00:00:00:00:fe","networks":["10.0.0.254/24"]} ~ OutOfRange router
{"add":"router_port","name":"rp","router":"r0/1","mac":"0a:00:00:00:00:fe","networks":["10.0.0.254/24"]} ~ OutOfRange router
{"add":"router_port","name":"rp","router":"r0","mac":"0A:fF:00:00:00:01","networks":["10.0.0.254/24"]} ~ ok
{"add":"router_port","name":"rp","router":"r0","networks":["10.0.0.254/24"]} ~ MissingField mac
{"add":"router_port","name":"rp","router":"r0","mac":5,"networks":["10.0.0.254/24"]} ~ WrongKind mac
{"add":"router_port","name":"rp","router":"r0","mac":"0a:00:00:00:00:1","networks":["10.0.0.254/24"]} ~ OutOfRange mac
{"add":"router_port","name":"rp","router":"r0","mac":"0a-00-00-00-00-01","networks":["10.0.0.254/24"]} ~ OutOfRange mac
{"add":"router_port","name":"rp","router":"r0","mac":"0a:00:00:00:00:01 10.0.0.1","networks":["10.0.0.254/24"]} ~ OutOfRange mac
{"add":"router_port","name":"rp","router":"r0","mac":"router","networks":["10.0.0.254/24"]} ~ OutOfRange mac
{"add":"router_port","name":"rp","router":"r0","mac":"","networks":["10.0.0.254/24"]} ~ OutOfRange mac
{"add":"router_port","name":"rp","router":"r0","mac":"0a:00:00:00:00:fe","networks":["0.0.0.0/0"]} ~ ok
{"add":"router_port","name":"rp","router":"r0","mac":"0a:00:00:00:00:fe","networks":["10.0.0.1/24","10.0.0.1/32"]} ~ ok
{"add":"router_port","name":"rp","router":"r0","mac":"0a:00:00:00:00:fe","networks":["10.0.0.1/24","10.0.0.1/24","10.0.0.1/24","10.0.0.1/24","10.0.0.1/24","10.0.0.1/24","10.0.0.1/24","10.0.0.1/24","10.0.0.1/24","10.0.0.1/24","10.0.0.1/24","10.0.0.1/24","10.0.0.1/24","10.0.0.1/24","10.0.0.1/24","10.0.0.1/24"]} ~ ok
{"add":"router_port","name":"rp","router":"r0","mac":"0a:00:00:00:00:fe"} ~ MissingField networks
{"add":"router_port","name":"rp","router":"r0","mac":"0a:00:00:00:00:fe","networks":"x"} ~ WrongKind networks
{"add":"router_port","name":"rp","router":"r0","mac":"0a:00:00:00:00:fe","networks":["a b",5]} ~ WrongKind networks
{"add":"router_port","name":"rp","router":"r0","mac":"0a:00:00:00:00:fe","networks":[]} ~ OutOfRange networks
{"add":"router_port","name":"rp","router":"r0","mac":"0a:00:00:00:00:fe","networks":["10.0.0.1/24","10.0.0.1/24","10.0.0.1/24","10.0.0.1/24","10.0.0.1/24","10.0.0.1/24","10.0.0.1/24","10.0.0.1/24","10.0.0.1/24","10.0.0.1/24","10.0.0.1/24","10.0.0.1/24","10.0.0.1/24","10.0.0.1/24","10.0.0.1/24","10.0.0.1/24","10.0.0.1/24"]} ~ OutOfRange networks
{"add":"router_port","name":"rp","router":"r0","mac":"0a:00:00:00:00:fe","networks":["10.0.0.1"]} ~ OutOfRange networks
{"add":"router_port","name":"rp","router":"r0","mac":"0a:00:00:00:00:fe","networks":["10.0.0.1/33"]} ~ OutOfRange networks
{"add":"router_port","name":"rp","router":"r0","mac":"0a:00:00:00:00:fe","networks":["10.0.0.1/024"]} ~ OutOfRange networks
{"add":"router_port","name":"rp","router":"r0","mac":"0a:00:00:00:00:fe","networks":["10.0.0.01/24"]} ~ OutOfRange networks
{"add":"router_port","name":"rp","router":"r0","mac":"0a:00:00:00:00:fe","networks":["10.0.0.1/24","10.0.0/24"]} ~ OutOfRange networks
{"add":"router_port","name":"rp","router":"r0","mac":"0a:00:00:00:00:fe","networks":[5,5,5,5,5,5,5,5,5,5,5,5,5,5,5,5,5]} ~ WrongKind networks
{"add":"router_port","name":"rp","router":"r0","mac":"0a:00:00:00:00:fe","networks":["10.0.0.254/24"],"peer":"rq"} ~ ok
{"add":"router_port","name":"rp","router":"r0","mac":"0a:00:00:00:00:fe","networks":["10.0.0.254/24"],"peer":5} ~ WrongKind peer
{"add":"router_port","name":"rp","router":"r0","mac":"0a:00:00:00:00:fe","networks":["10.0.0.254/24"],"peer":"r q"} ~ OutOfRange peer"#;

/// Operations that add switch ports.
pub(crate) const SWITCH_PORT: &str = r#"{"add":"switch_port","name":"p1","switch":"s0"} ~ ok
{"add":"switch_port","switch":"s0"} ~ MissingField name
{"add":"switch_port","name":5,"switch":"s0"} ~ WrongKind name
{"add":"switch_port","name":"p 1","switch":"s0"} ~ OutOfRange name
{"add":"switch_port","name":"p1"} ~ MissingField switch
{"add":"switch_port","name":"p1","switch":5} ~ WrongKind switch
{"add":"switch_port","name":"p1","switch":"s 0"} ~ OutOfRange switch
{"add":"switch_port","name":"p1","switch":"s0","type":""} ~ ok
{"add":"switch_port","name":"p1","switch":"s0","type":5} ~ WrongKind type
{"add":"switch_port","name":"p1","switch":"s0","type":"vtep"} ~ OutOfRange type
{"add":"switch_port","name":"p1","switch":"s0","type":"Router"} ~ OutOfRange type
{"add":"switch_port","name":"p1","switch":"s0","type":"router"} ~ MissingField router_port
{"add":"switch_port","name":"p1","switch":"s0","router_port":"rp"} ~ UnknownField router_port
{"add":"switch_port","name":"p1","switch":"s0","addresses":[]} ~ ok
{"add":"switch_port","name":"p1","switch":"s0","addresses":["unknown"]} ~ ok
{"add":"switch_port","name":"p1","switch":"s0","addresses":["router","unknown"]} ~ ok
{"add":"switch_port","name":"p1","switch":"s0","addresses":["0a:00:00:00:00:01"]} ~ ok
{"add":"switch_port","name":"p1","switch":"s0","addresses":["0A:00:00:00:00:01 10.0.0.1 10.0.0.2"]} ~ ok
{"add":"switch_port","name":"p1","switch":"s0","addresses":"x"} ~ WrongKind addresses
{"add":"switch_port","name":"p1","switch":"s0","addresses":["a b",5]} ~ WrongKind addresses
{"add":"switch_port","name":"p1","switch":"s0","addresses":["10.0.0.1"]} ~ OutOfRange addresses
{"add":"switch_port","name":"p1","switch":"s0","addresses":["0a:00:00:00:00:01  10.0.0.1"]} ~ OutOfRange addresses
{"add":"switch_port","name":"p1","switch":"s0","addresses":["0a:00:00:00:00:01 "]} ~ OutOfRange addresses
{"add":"switch_port","name":"p1","switch":"s0","addresses":["0a:00:00:00:00:01 10.0.0.1/24"]} ~ OutOfRange addresses
{"add":"switch_port","name":"p1","switch":"s0","addresses":["dynamic"]} ~ OutOfRange addresses
{"add":"switch_port","name":"p1","switch":"s0","addresses":["unknown",""]} ~ OutOfRange addresses
{"add":"switch_port","name":"p1","switch":"s0","port_security":[]} ~ ok
{"add":"switch_port","name":"p1","switch":"s0","port_security":["0a:00:00:00:00:01"]} ~ ok
{"add":"switch_port","name":"p1","switch":"s0","port_security":["0a:00:00:00:00:01 10.0.0.1 10.0.0.0/24 0.0.0.0/0"]} ~ ok
{"add":"switch_port","name":"p1","switch":"s0","port_security":"x"} ~ WrongKind port_security
{"add":"switch_port","name":"p1","switch":"s0","port_security":["a b",5]} ~ WrongKind port_security
{"add":"switch_port","name":"p1","switch":"s0","port_security":["unknown"]} ~ OutOfRange port_security
{"add":"switch_port","name":"p1","switch":"s0","port_security":["router"]} ~ OutOfRange port_security
{"add":"switch_port","name":"p1","switch":"s0","port_security":["0a:00:00:00:00:01 10.0.0.0/33"]} ~ OutOfRange port_security
{"add":"switch_port","name":"p1","switch":"s0","port_security":["0a:00:00:00:00:01\t10.0.0.1"]} ~ OutOfRange port_security
{"add":"switch_port","name":"p1","switch":"s0","enabled":true} ~ ok
{"add":"switch_port","name":"p1","switch":"s0","enabled":false} ~ ok
{"add":"switch_port","name":"p1","switch":"s0","enabled":1} ~ WrongKind enabled
{"add":"switch_port","name":"p1","switch":"s0","enabled":"true"} ~ WrongKind enabled
{"add":"switch_port","name":"p1","switch":"s0","enabled":null} ~ WrongKind enabled
{"add":"switch_port","name":"p1","switch":"s0","type":"router","router_port":"rp"} ~ ok
{"add":"switch_port","name":"p1","switch":"s0","type":"router","router_port":5} ~ WrongKind router_port
{"add":"switch_port","name":"p1","switch":"s0","type":"router","router_port":"r p"} ~ OutOfRange router_port"#;

/// Operations that add address sets.
pub(crate) const ADDRESS_SET: &str = r#"{"add":"address_set","name":"as","addresses":[]} ~ ok
{"add":"address_set","addresses":[]} ~ MissingField name
{"add":"address_set","name":5,"addresses":[]} ~ WrongKind name
{"add":"address_set","name":"a s","addresses":[]} ~ OutOfRange name
{"add":"address_set","name":"as","addresses":["10.0.0.1"]} ~ ok
{"add":"address_set","name":"as","addresses":["10.0.0.1/24","0.0.0.0/0"]} ~ ok
{"add":"address_set","name":"as","addresses":["0a:00:00:00:00:01","10.0.0.1"]} ~ ok
{"add":"address_set","name":"as"} ~ MissingField addresses
{"add":"address_set","name":"as","addresses":"x"} ~ WrongKind addresses
{"add":"address_set","name":"as","addresses":["a b",5]} ~ WrongKind addresses
{"add":"address_set","name":"as","addresses":["unknown"]} ~ OutOfRange addresses
{"add":"address_set","name":"as","addresses":["10.0.0.1/33"]} ~ OutOfRange addresses
{"add":"address_set","name":"as","addresses":["0a:00:00:00:00:01 10.0.0.1"]} ~ OutOfRange addresses
{"add":"address_set","name":"as","addresses":["10.0.0.256"]} ~ OutOfRange addresses"#;

/// Operations that add port groups.
pub(crate) const PORT_GROUP: &str = r#"{"add":"port_group","name":"pg","ports":[]} ~ ok
{"add":"port_group","ports":[]} ~ MissingField name
{"add":"port_group","name":5,"ports":[]} ~ WrongKind name
{"add":"port_group","name":"p g","ports":[]} ~ OutOfRange name
{"add":"port_group","name":"pg","ports":["p1","p1"]} ~ ok
{"add":"port_group","name":"pg","ports":["nnnnnnnnnnnnnnnnnnnnnnnnnnnnnnnnnnnnnnnnnnnnnnnnnnnnnnnnnnnnnnnn"]} ~ ok
{"add":"port_group","name":"pg"} ~ MissingField ports
{"add":"port_group","name":"pg","ports":"x"} ~ WrongKind ports
{"add":"port_group","name":"pg","ports":["a b",5]} ~ WrongKind ports
{"add":"port_group","name":"pg","ports":["p1",""]} ~ OutOfRange ports
{"add":"port_group","name":"pg","ports":["nnnnnnnnnnnnnnnnnnnnnnnnnnnnnnnnnnnnnnnnnnnnnnnnnnnnnnnnnnnnnnnnn"]} ~ OutOfRange ports"#;

/// Operations that add rules.
pub(crate) const ACL: &str =
    r#"{"add":"acl","name":"a0","switch":"s0","direction":"to-lport","priority":1000,"match":"ip4","action":"drop"} ~ ok
{"add":"acl","switch":"s0","direction":"to-lport","priority":1000,"match":"ip4","action":"drop"} ~ MissingField name
{"add":"acl","name":5,"switch":"s0","direction":"to-lport","priority":1000,"match":"ip4","action":"drop"} ~ WrongKind name
{"add":"acl","name":"a 0","switch":"s0","direction":"to-lport","priority":1000,"match":"ip4","action":"drop"} ~ OutOfRange name
{"add":"acl","name":"a0","direction":"to-lport","priority":1000,"match":"ip4","action":"drop"} ~ MissingField switch
{"add":"acl","name":"a0","switch":5,"direction":"to-lport","priority":1000,"match":"ip4","action":"drop"} ~ WrongKind switch
{"add":"acl","name":"a0","switch":"s 0","direction":"to-lport","priority":1000,"match":"ip4","action":"drop"} ~ OutOfRange switch
{"add":"acl","name":"a0","switch":"s0","direction":"to-lport","priority":1000,"match":"ip4","action":"drop","port_group":"pg"} ~ UnknownField port_group
{"add":"acl","name":"a0","switch":"s0","direction":"from-lport","priority":1000,"match":"ip4","action":"drop"} ~ ok
{"add":"acl","name":"a0","switch":"s0","priority":1000,"match":"ip4","action":"drop"} ~ MissingField direction
{"add":"acl","name":"a0","switch":"s0","direction":5,"priority":1000,"match":"ip4","action":"drop"} ~ WrongKind direction
{"add":"acl","name":"a0","switch":"s0","direction":"in","priority":1000,"match":"ip4","action":"drop"} ~ OutOfRange direction
{"add":"acl","name":"a0","switch":"s0","direction":"","priority":1000,"match":"ip4","action":"drop"} ~ OutOfRange direction
{"add":"acl","name":"a0","switch":"s0","direction":"to-lport","priority":0,"match":"ip4","action":"drop"} ~ ok
{"add":"acl","name":"a0","switch":"s0","direction":"to-lport","priority":32767,"match":"ip4","action":"drop"} ~ ok
{"add":"acl","name":"a0","switch":"s0","direction":"to-lport","match":"ip4","action":"drop"} ~ MissingField priority
{"add":"acl","name":"a0","switch":"s0","direction":"to-lport","priority":"1000","match":"ip4","action":"drop"} ~ WrongKind priority
{"add":"acl","name":"a0","switch":"s0","direction":"to-lport","priority":-1,"match":"ip4","action":"drop"} ~ WrongKind priority
{"add":"acl","name":"a0","switch":"s0","direction":"to-lport","priority":1.5,"match":"ip4","action":"drop"} ~ WrongKind priority
{"add":"acl","name":"a0","switch":"s0","direction":"to-lport","priority":18446744073709551616,"match":"ip4","action":"drop"} ~ WrongKind priority
{"add":"acl","name":"a0","switch":"s0","direction":"to-lport","priority":18446744073709551615,"match":"ip4","action":"drop"} ~ OutOfRange priority
{"add":"acl","name":"a0","switch":"s0","direction":"to-lport","priority":32768,"match":"ip4","action":"drop"} ~ OutOfRange priority
{"add":"acl","name":"a0","switch":"s0","direction":"to-lport","priority":1000,"match":"1","action":"drop"} ~ ok
{"add":"acl","name":"a0","switch":"s0","direction":"to-lport","priority":1000,"match":"outport == \"p1\" && ip4.src == $as","action":"drop"} ~ ok
{"add":"acl","name":"a0","switch":"s0","direction":"to-lport","priority":1000,"action":"drop"} ~ MissingField match
{"add":"acl","name":"a0","switch":"s0","direction":"to-lport","priority":1000,"match":5,"action":"drop"} ~ WrongKind match
{"add":"acl","name":"a0","switch":"s0","direction":"to-lport","priority":1000,"match":"","action":"drop"} ~ BadMatch Syntax(0)
{"add":"acl","name":"a0","switch":"s0","direction":"to-lport","priority":1000,"match":"ip4 ? tcp","action":"drop"} ~ BadMatch Token(4)
{"add":"acl","name":"a0","switch":"s0","direction":"to-lport","priority":1000,"match":"ip5","action":"drop"} ~ BadMatch UnknownField(0)
{"add":"acl","name":"a0","switch":"s0","direction":"to-lport","priority":1000,"match":"tcp.dst == 65536","action":"drop"} ~ BadMatch BadConstant(11)
{"add":"acl","name":"a0","switch":"s0","direction":"to-lport","priority":1000,"match":"ip4 && tcp || udp","action":"drop"} ~ BadMatch MixedAndOr(11)
{"add":"acl","name":"a0","switch":"s0","direction":"to-lport","priority":1000,"match":"!!!!!!!!!!!!!!!!!!!!!!!!!!!!!!!!!!!!!!!!!!!!!!!!!!!!!!!!!!!!!!!!ip4","action":"drop"} ~ ok
{"add":"acl","name":"a0","switch":"s0","direction":"to-lport","priority":1000,"match":"!!!!!!!!!!!!!!!!!!!!!!!!!!!!!!!!!!!!!!!!!!!!!!!!!!!!!!!!!!!!!!!!!ip4","action":"drop"} ~ BadMatch TooDeep(64)
{"add":"acl","name":"a0","switch":"s0","direction":"to-lport","priority":1000,"match":"ip4","action":"allow"} ~ ok
{"add":"acl","name":"a0","switch":"s0","direction":"to-lport","priority":1000,"match":"ip4","action":"allow-related"} ~ ok
{"add":"acl","name":"a0","switch":"s0","direction":"to-lport","priority":1000,"match":"ip4","action":"allow-stateless"} ~ ok
{"add":"acl","name":"a0","switch":"s0","direction":"to-lport","priority":1000,"match":"ip4","action":"reject"} ~ ok
{"add":"acl","name":"a0","switch":"s0","direction":"to-lport","priority":1000,"match":"ip4"} ~ MissingField action
{"add":"acl","name":"a0","switch":"s0","direction":"to-lport","priority":1000,"match":"ip4","action":5} ~ WrongKind action
{"add":"acl","name":"a0","switch":"s0","direction":"to-lport","priority":1000,"match":"ip4","action":"permit"} ~ OutOfRange action
{"add":"acl","name":"a0","port_group":"pg","direction":"to-lport","priority":1000,"match":"ip4","action":"drop"} ~ ok
{"add":"acl","name":"a0","port_group":5,"direction":"to-lport","priority":1000,"match":"ip4","action":"drop"} ~ WrongKind port_group
{"add":"acl","name":"a0","port_group":"p g","direction":"to-lport","priority":1000,"match":"ip4","action":"drop"} ~ OutOfRange port_group
{"add":"acl","name":"a0","switch":"s0","direction":"from-lport","priority":1000,"match":"inport == \"p1\"","action":"drop"} ~ ok
{"add":"acl","name":"a0","switch":"s0","direction":"from-lport","priority":1000,"match":"outport == \"p1\"","action":"drop"} ~ BadMatch UnknownField(0)"#;

/// Operations that add routes.
pub(crate) const ROUTE: &str =
    r#"{"add":"route","name":"x","router":"r0","prefix":"10.0.0.0/8","nexthop":"10.0.0.1"} ~ ok
{"add":"route","router":"r0","prefix":"10.0.0.0/8","nexthop":"10.0.0.1"} ~ MissingField name
{"add":"route","name":5,"router":"r0","prefix":"10.0.0.0/8","nexthop":"10.0.0.1"} ~ WrongKind name
{"add":"route","name":"x ","router":"r0","prefix":"10.0.0.0/8","nexthop":"10.0.0.1"} ~ OutOfRange name
{"add":"route","name":"x","prefix":"10.0.0.0/8","nexthop":"10.0.0.1"} ~ MissingField router
{"add":"route","name":"x","router":5,"prefix":"10.0.0.0/8","nexthop":"10.0.0.1"} ~ WrongKind router
{"add":"route","name":"x","router":"r 0","prefix":"10.0.0.0/8","nexthop":"10.0.0.1"} ~ OutOfRange router
{"add":"route","name":"x","router":"r0","prefix":"0.0.0.0/0","nexthop":"10.0.0.1"} ~ ok
{"add":"route","name":"x","router":"r0","prefix":"10.0.0.1/24","nexthop":"10.0.0.1"} ~ ok
{"add":"route","name":"x","router":"r0","nexthop":"10.0.0.1"} ~ MissingField prefix
{"add":"route","name":"x","router":"r0","prefix":5,"nexthop":"10.0.0.1"} ~ WrongKind prefix
{"add":"route","name":"x","router":"r0","prefix":"10.0.0.0","nexthop":"10.0.0.1"} ~ OutOfRange prefix
{"add":"route","name":"x","router":"r0","prefix":"10.0.0.0/","nexthop":"10.0.0.1"} ~ OutOfRange prefix
{"add":"route","name":"x","router":"r0","prefix":"10.0.0.0/-1","nexthop":"10.0.0.1"} ~ OutOfRange prefix
{"add":"route","name":"x","router":"r0","prefix":"10.0.0.0/33","nexthop":"10.0.0.1"} ~ OutOfRange prefix
{"add":"route","name":"x","router":"r0","prefix":"10.0.0.0/255.0.0.0","nexthop":"10.0.0.1"} ~ OutOfRange prefix
{"add":"route","name":"x","router":"r0","prefix":"10.0.0.0/8","nexthop":"255.255.255.255"} ~ ok
{"add":"route","name":"x","router":"r0","prefix":"10.0.0.0/8"} ~ MissingField nexthop
{"add":"route","name":"x","router":"r0","prefix":"10.0.0.0/8","nexthop":5} ~ WrongKind nexthop
{"add":"route","name":"x","router":"r0","prefix":"10.0.0.0/8","nexthop":"10.0.0.1/32"} ~ OutOfRange nexthop
{"add":"route","name":"x","router":"r0","prefix":"10.0.0.0/8","nexthop":"10.0.0.256"} ~ OutOfRange nexthop
{"add":"route","name":"x","router":"r0","prefix":"10.0.0.0/8","nexthop":"10.0.0"} ~ OutOfRange nexthop
{"add":"route","name":"x","router":"r0","prefix":"10.0.0.0/8","nexthop":"010.0.0.1"} ~ OutOfRange nexthop"#;

/// Operations that add translations.
pub(crate) const NAT: &str =
    r#"{"add":"nat","name":"x","router":"r0","type":"snat","external_ip":"192.0.2.1","logical_ip":"10.0.0.0/24"} ~ ok
{"add":"nat","router":"r0","type":"snat","external_ip":"192.0.2.1","logical_ip":"10.0.0.0/24"} ~ MissingField name
{"add":"nat","name":5,"router":"r0","type":"snat","external_ip":"192.0.2.1","logical_ip":"10.0.0.0/24"} ~ WrongKind name
{"add":"nat","name":"x/y","router":"r0","type":"snat","external_ip":"192.0.2.1","logical_ip":"10.0.0.0/24"} ~ OutOfRange name
{"add":"nat","name":"x","type":"snat","external_ip":"192.0.2.1","logical_ip":"10.0.0.0/24"} ~ MissingField router
{"add":"nat","name":"x","router":5,"type":"snat","external_ip":"192.0.2.1","logical_ip":"10.0.0.0/24"} ~ WrongKind router
{"add":"nat","name":"x","router":"r 0","type":"snat","external_ip":"192.0.2.1","logical_ip":"10.0.0.0/24"} ~ OutOfRange router
{"add":"nat","name":"x","router":"r0","type":"dnat","external_ip":"192.0.2.1","logical_ip":"10.0.0.0/24"} ~ ok
{"add":"nat","name":"x","router":"r0","type":"dnat_and_snat","external_ip":"192.0.2.1","logical_ip":"10.0.0.0/24"} ~ ok
{"add":"nat","name":"x","router":"r0","external_ip":"192.0.2.1","logical_ip":"10.0.0.0/24"} ~ MissingField type
{"add":"nat","name":"x","router":"r0","type":5,"external_ip":"192.0.2.1","logical_ip":"10.0.0.0/24"} ~ WrongKind type
{"add":"nat","name":"x","router":"r0","type":"","external_ip":"192.0.2.1","logical_ip":"10.0.0.0/24"} ~ OutOfRange type
{"add":"nat","name":"x","router":"r0","type":"dnat-and-snat","external_ip":"192.0.2.1","logical_ip":"10.0.0.0/24"} ~ OutOfRange type
{"add":"nat","name":"x","router":"r0","type":"snat","external_ip":"0.0.0.0","logical_ip":"10.0.0.0/24"} ~ ok
{"add":"nat","name":"x","router":"r0","type":"snat","logical_ip":"10.0.0.0/24"} ~ MissingField external_ip
{"add":"nat","name":"x","router":"r0","type":"snat","external_ip":5,"logical_ip":"10.0.0.0/24"} ~ WrongKind external_ip
{"add":"nat","name":"x","router":"r0","type":"snat","external_ip":"192.0.2.1/32","logical_ip":"10.0.0.0/24"} ~ OutOfRange external_ip
{"add":"nat","name":"x","router":"r0","type":"snat","external_ip":"192.0.2.1","logical_ip":"10.0.0.1"} ~ ok
{"add":"nat","name":"x","router":"r0","type":"snat","external_ip":"192.0.2.1"} ~ MissingField logical_ip
{"add":"nat","name":"x","router":"r0","type":"snat","external_ip":"192.0.2.1","logical_ip":5} ~ WrongKind logical_ip
{"add":"nat","name":"x","router":"r0","type":"snat","external_ip":"192.0.2.1","logical_ip":"10.0.0.0/33"} ~ OutOfRange logical_ip
{"add":"nat","name":"x","router":"r0","type":"snat","external_ip":"192.0.2.1","logical_ip":"10.0.0.1:80"} ~ OutOfRange logical_ip"#;

/// Operations that add balancers.
pub(crate) const LOAD_BALANCER: &str = r#"{"add":"load_balancer","name":"lb","vips":{}} ~ ok
{"add":"load_balancer","vips":{}} ~ MissingField name
{"add":"load_balancer","name":5,"vips":{}} ~ WrongKind name
{"add":"load_balancer","name":"l b","vips":{}} ~ OutOfRange name
{"add":"load_balancer","name":"lb","vips":{},"protocol":"tcp"} ~ ok
{"add":"load_balancer","name":"lb","vips":{},"protocol":"udp"} ~ ok
{"add":"load_balancer","name":"lb","vips":{},"protocol":5} ~ WrongKind protocol
{"add":"load_balancer","name":"lb","vips":{},"protocol":"sctp"} ~ OutOfRange protocol
{"add":"load_balancer","name":"lb","vips":{},"protocol":"TCP"} ~ OutOfRange protocol
{"add":"load_balancer","name":"lb","vips":{},"protocol":""} ~ OutOfRange protocol
{"add":"load_balancer","name":"lb","vips":{"10.0.0.100:80":""}} ~ ok
{"add":"load_balancer","name":"lb","vips":{"10.0.0.100:80":"10.0.0.2:80,10.0.0.2:80,10.0.0.3:65535"}} ~ ok
{"add":"load_balancer","name":"lb"} ~ MissingField vips
{"add":"load_balancer","name":"lb","vips":["10.0.0.100:80"]} ~ WrongKind vips
{"add":"load_balancer","name":"lb","vips":{"x":5}} ~ WrongKind vips
{"add":"load_balancer","name":"lb","vips":{"10.0.0.100:80":"x","10.0.0.101:80":null}} ~ WrongKind vips
{"add":"load_balancer","name":"lb","vips":{"10.0.0.100":""}} ~ OutOfRange vips
{"add":"load_balancer","name":"lb","vips":{"10.0.0.100:0":""}} ~ OutOfRange vips
{"add":"load_balancer","name":"lb","vips":{"10.0.0.100:080":""}} ~ OutOfRange vips
{"add":"load_balancer","name":"lb","vips":{"10.0.0.100:65536":""}} ~ OutOfRange vips
{"add":"load_balancer","name":"lb","vips":{"10.0.0.100:80":"10.0.0.2:80, 10.0.0.3:80"}} ~ OutOfRange vips
{"add":"load_balancer","name":"lb","vips":{"10.0.0.100:80":"10.0.0.2:80,"}} ~ OutOfRange vips
{"add":"load_balancer","name":"lb","vips":{"10.0.0.100:80":"10.0.0.2"}} ~ OutOfRange vips
{"add":"load_balancer","name":"lb","vips":{},"switches":[]} ~ ok
{"add":"load_balancer","name":"lb","vips":{},"switches":["s0","s0"]} ~ ok
{"add":"load_balancer","name":"lb","vips":{},"switches":"x"} ~ WrongKind switches
{"add":"load_balancer","name":"lb","vips":{},"switches":["a b",5]} ~ WrongKind switches
{"add":"load_balancer","name":"lb","vips":{},"switches":["s0","s 0"]} ~ OutOfRange switches
{"add":"load_balancer","name":"lb","vips":{},"routers":[]} ~ ok
{"add":"load_balancer","name":"lb","vips":{},"routers":["r0"]} ~ ok
{"add":"load_balancer","name":"lb","vips":{},"routers":"x"} ~ WrongKind routers
{"add":"load_balancer","name":"lb","vips":{},"routers":["a b",5]} ~ WrongKind routers
{"add":"load_balancer","name":"lb","vips":{},"routers":[""]} ~ OutOfRange routers"#;

/// Operations that add static bindings.
pub(crate) const STATIC_MAC: &str =
    r#"{"add":"static_mac","name":"x","port":"rp","ip":"10.0.0.1","mac":"0a:00:00:00:00:01"} ~ ok
{"add":"static_mac","port":"rp","ip":"10.0.0.1","mac":"0a:00:00:00:00:01"} ~ MissingField name
{"add":"static_mac","name":5,"port":"rp","ip":"10.0.0.1","mac":"0a:00:00:00:00:01"} ~ WrongKind name
{"add":"static_mac","name":"x,y","port":"rp","ip":"10.0.0.1","mac":"0a:00:00:00:00:01"} ~ OutOfRange name
{"add":"static_mac","name":"x","ip":"10.0.0.1","mac":"0a:00:00:00:00:01"} ~ MissingField port
{"add":"static_mac","name":"x","port":5,"ip":"10.0.0.1","mac":"0a:00:00:00:00:01"} ~ WrongKind port
{"add":"static_mac","name":"x","port":"r p","ip":"10.0.0.1","mac":"0a:00:00:00:00:01"} ~ OutOfRange port
{"add":"static_mac","name":"x","port":"rp","mac":"0a:00:00:00:00:01"} ~ MissingField ip
{"add":"static_mac","name":"x","port":"rp","ip":5,"mac":"0a:00:00:00:00:01"} ~ WrongKind ip
{"add":"static_mac","name":"x","port":"rp","ip":"10.0.0.1/32","mac":"0a:00:00:00:00:01"} ~ OutOfRange ip
{"add":"static_mac","name":"x","port":"rp","ip":"10.0.0.1","mac":"00:00:00:00:00:00"} ~ ok
{"add":"static_mac","name":"x","port":"rp","ip":"10.0.0.1"} ~ MissingField mac
{"add":"static_mac","name":"x","port":"rp","ip":"10.0.0.1","mac":5} ~ WrongKind mac
{"add":"static_mac","name":"x","port":"rp","ip":"10.0.0.1","mac":"0a:00:00:00:00:gg"} ~ OutOfRange mac"#;

/// Operations that set and remove.
pub(crate) const SET_AND_REMOVE: &str = r#"{"set":"switch","name":"s0"} ~ ok
{"set":"switch","name":"s0","chassis":"hv1"} ~ UnknownField chassis
{"set":"router","name":"r0"} ~ ok
{"set":"router","name":"r0","chassis":"hv1"} ~ UnknownField chassis
{"set":"router_port","name":"rp","router":"r0"} ~ UnknownField router
{"set":"router_port","name":"rp","mac":"0a:00:00:00:00:01"} ~ ok
{"set":"router_port","name":"rp"} ~ ok
{"set":"router_port","name":"rp","mac":5} ~ WrongKind mac
{"set":"router_port","name":"rp","mac":""} ~ OutOfRange mac
{"set":"router_port","name":"rp","networks":["10.0.0.1/8"]} ~ ok
{"set":"router_port","name":"rp","networks":"10.0.0.1/8"} ~ WrongKind networks
{"set":"router_port","name":"rp","networks":[]} ~ OutOfRange networks
{"set":"router_port","name":"rp","peer":"rq"} ~ ok
{"set":"router_port","name":"rp","peer":null} ~ WrongKind peer
{"set":"router_port","name":"rp","peer":""} ~ OutOfRange peer
{"set":"switch_port","name":"p1","switch":"s0"} ~ UnknownField switch
{"set":"switch_port","name":"p1","type":""} ~ UnknownField type
{"set":"switch_port","name":"p1","router_port":"rp"} ~ UnknownField router_port
{"set":"switch_port","name":"p1","addresses":[]} ~ ok
{"set":"switch_port","name":"p1","addresses":"unknown"} ~ WrongKind addresses
{"set":"switch_port","name":"p1","addresses":["x"]} ~ OutOfRange addresses
{"set":"switch_port","name":"p1","port_security":["0a:00:00:00:00:01 10.0.0.0/8"]} ~ ok
{"set":"switch_port","name":"p1","port_security":[5]} ~ WrongKind port_security
{"set":"switch_port","name":"p1","port_security":["x"]} ~ OutOfRange port_security
{"set":"switch_port","name":"p1","enabled":false} ~ ok
{"set":"switch_port","name":"p1","enabled":0} ~ WrongKind enabled
{"set":"address_set","name":"as","addresses":[]} ~ ok
{"set":"address_set","name":"as"} ~ ok
{"set":"address_set","name":"as","addresses":{}} ~ WrongKind addresses
{"set":"address_set","name":"as","addresses":[""]} ~ OutOfRange addresses
{"set":"port_group","name":"pg","ports":["p1"]} ~ ok
{"set":"port_group","name":"pg","ports":"p1"} ~ WrongKind ports
{"set":"port_group","name":"pg","ports":["p 1"]} ~ OutOfRange ports
{"set":"acl","name":"a0","switch":"s0"} ~ UnknownField switch
{"set":"acl","name":"a0","port_group":"pg"} ~ UnknownField port_group
{"set":"acl","name":"a0","direction":"to-lport"} ~ UnknownField direction
{"set":"acl","name":"a0","priority":0} ~ ok
{"set":"acl","name":"a0","priority":"0"} ~ WrongKind priority
{"set":"acl","name":"a0","priority":32768} ~ OutOfRange priority
{"set":"acl","name":"a0","match":"outport == \"p1\""} ~ ok
{"set":"acl","name":"a0","match":1} ~ WrongKind match
{"set":"acl","name":"a0","match":"ip4 &&"} ~ BadMatch Syntax(6)
{"set":"acl","name":"a0","action":"allow"} ~ ok
{"set":"acl","name":"a0","action":1} ~ WrongKind action
{"set":"acl","name":"a0","action":"accept"} ~ OutOfRange action
{"set":"route","name":"x","router":"r0"} ~ UnknownField router
{"set":"route","name":"x","prefix":"10.0.0.0/8"} ~ ok
{"set":"route","name":"x","prefix":8} ~ WrongKind prefix
{"set":"route","name":"x","prefix":"10.0.0.0"} ~ OutOfRange prefix
{"set":"route","name":"x","nexthop":"10.0.0.1"} ~ ok
{"set":"route","name":"x","nexthop":1} ~ WrongKind nexthop
{"set":"route","name":"x","nexthop":"10.0.0.1/32"} ~ OutOfRange nexthop
{"set":"nat","name":"x","router":"r0"} ~ UnknownField router
{"set":"nat","name":"x","type":"snat"} ~ UnknownField type
{"set":"nat","name":"x","external_ip":"10.0.0.1"} ~ ok
{"set":"nat","name":"x","external_ip":1} ~ WrongKind external_ip
{"set":"nat","name":"x","external_ip":"10.0.0.1/32"} ~ OutOfRange external_ip
{"set":"nat","name":"x","logical_ip":"10.0.0.1/32"} ~ ok
{"set":"nat","name":"x","logical_ip":1} ~ WrongKind logical_ip
{"set":"nat","name":"x","logical_ip":"x"} ~ OutOfRange logical_ip
{"set":"load_balancer","name":"lb","protocol":"udp"} ~ UnknownField protocol
{"set":"load_balancer","name":"lb","vips":{}} ~ ok
{"set":"load_balancer","name":"lb","vips":[]} ~ WrongKind vips
{"set":"load_balancer","name":"lb","vips":{"x":""}} ~ OutOfRange vips
{"set":"load_balancer","name":"lb","switches":[]} ~ ok
{"set":"load_balancer","name":"lb","switches":"s0"} ~ WrongKind switches
{"set":"load_balancer","name":"lb","switches":[""]} ~ OutOfRange switches
{"set":"load_balancer","name":"lb","routers":["r0"]} ~ ok
{"set":"load_balancer","name":"lb","routers":[1]} ~ WrongKind routers
{"set":"load_balancer","name":"lb","routers":[" "]} ~ OutOfRange routers
{"set":"static_mac","name":"x","port":"rp"} ~ UnknownField port
{"set":"static_mac","name":"x","ip":"10.0.0.1"} ~ ok
{"set":"static_mac","name":"x","ip":[]} ~ WrongKind ip
{"set":"static_mac","name":"x","ip":"10.0.0"} ~ OutOfRange ip
{"set":"static_mac","name":"x","mac":"0a:00:00:00:00:01"} ~ ok
{"set":"static_mac","name":"x","mac":1} ~ WrongKind mac
{"set":"static_mac","name":"x","mac":"x"} ~ OutOfRange mac
{"set":"switch"} ~ MissingField name
{"set":"switch","name":5} ~ WrongKind name
{"set":"switch","name":""} ~ OutOfRange name
{"set":"acl","name":"a b","priority":"x"} ~ OutOfRange name
{"remove":"switch","name":"x"} ~ ok
{"remove":"router","name":"x"} ~ ok
{"remove":"router_port","name":"x"} ~ ok
{"remove":"switch_port","name":"x"} ~ ok
{"remove":"address_set","name":"x"} ~ ok
{"remove":"port_group","name":"x"} ~ ok
{"remove":"acl","name":"x"} ~ ok
{"remove":"route","name":"x"} ~ ok
{"remove":"nat","name":"x"} ~ ok
{"remove":"load_balancer","name":"x"} ~ ok
{"remove":"static_mac","name":"x"} ~ ok
{"remove":"switch"} ~ MissingField name
{"remove":"switch","name":5} ~ WrongKind name
{"remove":"switch","name":"a b"} ~ OutOfRange name
{"remove":"acl","name":"a0","switch":"s0"} ~ UnknownField switch"#;

/// What an operation begins with, the order of faults, and members that stand twice.
pub(crate) const OPERATIONS: &str = r#"5 ~ NotObject
[] ~ NotObject
"add" ~ NotObject
{} ~ UnknownEvent
{"name":"s0"} ~ UnknownEvent
{"add":"switch","set":"switch","name":"s0"} ~ UnknownEvent
{"add":"switch","remove":"switch","name":"s0"} ~ UnknownEvent
{"set":"switch","remove":"switch","name":"s0"} ~ UnknownEvent
{"add":5,"name":"s0"} ~ UnknownEvent
{"add":"flow","name":"s0"} ~ UnknownEvent
{"add":"Switch","name":"s0"} ~ UnknownEvent
{"set":null,"name":"s0"} ~ UnknownEvent
{"remove":"","name":"s0"} ~ UnknownEvent
{"add":"switch","zz":1,"aa":1} ~ UnknownField aa
{"add":"switch","b":1,"B":1,"name":5} ~ UnknownField B
{"add":"switch","name":"s0","":1} ~ UnknownField 
{"add":"switch","name":"s0","é":1,"~":1} ~ UnknownField ~
{"add":"acl","name":"a b","switch":5,"port_group":5} ~ UnknownField port_group
{"add":"acl","aa":1,"switch":"s0","port_group":"pg"} ~ UnknownField aa
{"add":"switch_port","type":5,"router_port":5,"zz":1} ~ UnknownField router_port
{"add":"switch_port","name":"p1","switch":"s0","type":"x","router_port":"rp"} ~ UnknownField router_port
{"add":"router_port"} ~ MissingField name
{"add":"router_port","name":"rp","peer":5,"networks":5,"mac":5} ~ MissingField router
{"add":"router_port","name":"rp","router":"r0","peer":5,"networks":5,"mac":5} ~ WrongKind mac
{"add":"switch_port","name":"p1","enabled":5,"addresses":5,"switch":"s 0","type":5} ~ OutOfRange switch
{"add":"switch_port","name":"p1","enabled":5,"addresses":5,"switch":"s0","type":"router"} ~ MissingField router_port
{"add":"switch_port","name":"p1","enabled":5,"port_security":[""],"addresses":["x",5],"switch":"s0"} ~ WrongKind addresses
{"add":"switch_port","name":"p1","enabled":5,"port_security":[""],"switch":"s0"} ~ OutOfRange port_security
{"add":"acl","name":"a0","direction":"x","priority":"x","match":5} ~ MissingField switch
{"add":"acl","name":"a0","port_group":"pg","direction":"x","priority":"x","match":5} ~ OutOfRange direction
{"add":"acl","name":"a0","switch":"s0","direction":"to-lport","match":"x"} ~ MissingField priority
{"add":"acl","name":"a0","switch":"s0","direction":"to-lport","priority":1,"match":"x"} ~ BadMatch UnknownField(0)
{"add":"route","name":"x","router":"r0","nexthop":5} ~ MissingField prefix
{"add":"nat","name":"x","router":"r0","logical_ip":5,"external_ip":5} ~ MissingField type
{"add":"nat","name":"x","router":"r0","type":"snat","logical_ip":5,"external_ip":"x"} ~ OutOfRange external_ip
{"add":"load_balancer","name":"lb","routers":5,"switches":[""],"vips":{"x":""}} ~ OutOfRange vips
{"add":"load_balancer","name":"lb","routers":5,"switches":[""],"vips":{}} ~ OutOfRange switches
{"add":"static_mac","name":"x","mac":5,"ip":5} ~ MissingField port
{"set":"nat","name":"x","logical_ip":5,"external_ip":"x"} ~ OutOfRange external_ip
{"add":"switch","name":"a b","name":"s0"} ~ ok
{"add":"switch","name":"s0","name":"a b"} ~ OutOfRange name
{"add":"flow","name":"s0","add":"switch"} ~ ok
{"add":"load_balancer","name":"lb","vips":{"10.0.0.1:80":5,"10.0.0.1:80":""}} ~ ok
{"add":"switch","name":"a b"},5 ~ OutOfRange name
{"remove":"switch","name":"s0"},5,{} ~ NotObject"#;

/// Events with each field, and each of its faults.
pub(crate) const EVENTS: &str = r#"{"edit":[]} ~ OutOfRange edit
{"edit":{}} ~ WrongKind edit
{"edit":null} ~ WrongKind edit
{"bind":{"port":"p1","chassis":"hv1"}} ~ ok
{"bind":[]} ~ WrongKind bind
{"bind":{"port":"p1","chassis":"hv1","x":1}} ~ UnknownField x
{"bind":{"chassis":"hv1"}} ~ MissingField port
{"bind":{"port":5}} ~ WrongKind port
{"bind":{"port":"p 1"}} ~ OutOfRange port
{"bind":{"port":"p1"}} ~ MissingField chassis
{"bind":{"port":"p1","chassis":null}} ~ WrongKind chassis
{"bind":{"port":"p1","chassis":""}} ~ OutOfRange chassis
{"unbind":{"port":"p1"}} ~ ok
{"unbind":"p1"} ~ WrongKind unbind
{"unbind":{"port":"p1","chassis":"hv1"}} ~ UnknownField chassis
{"unbind":{}} ~ MissingField port
{"unbind":{"port":1}} ~ WrongKind port
{"unbind":{"port":""}} ~ OutOfRange port
{"chassis":{"add":"hv1"}} ~ ok
{"chassis":{"remove":"hv1"}} ~ ok
{"chassis":"hv1"} ~ WrongKind chassis
{"chassis":{}} ~ UnknownEvent
{"chassis":{"add":"hv1","remove":"hv1"}} ~ UnknownEvent
{"chassis":{"x":1}} ~ UnknownEvent
{"chassis":{"add":5,"x":1}} ~ UnknownField x
{"chassis":{"remove":"","name":1}} ~ UnknownField name
{"chassis":{"add":5}} ~ WrongKind add
{"chassis":{"add":"h v"}} ~ OutOfRange add
{"chassis":{"remove":[]}} ~ WrongKind remove
{"chassis":{"remove":""}} ~ OutOfRange remove
{"keys":{"datapaths":1,"ports":1}} ~ ok
{"keys":{"datapaths":16777215,"ports":32767}} ~ ok
{"keys":5} ~ WrongKind keys
{"keys":{"datapaths":1,"ports":1,"chassis":1}} ~ UnknownField chassis
{"keys":{"ports":1}} ~ MissingField datapaths
{"keys":{"datapaths":"1"}} ~ WrongKind datapaths
{"keys":{"datapaths":0}} ~ OutOfRange datapaths
{"keys":{"datapaths":16777216}} ~ OutOfRange datapaths
{"keys":{"datapaths":1}} ~ MissingField ports
{"keys":{"datapaths":1,"ports":1.0}} ~ WrongKind ports
{"keys":{"datapaths":1,"ports":0}} ~ OutOfRange ports
{"keys":{"datapaths":1,"ports":32768}} ~ OutOfRange ports
{"health":{"balancer":"lb","backend":"10.0.0.1:80","online":true}} ~ ok
{"health":{"balancer":"lb","backend":"10.0.0.1:80","online":false}} ~ ok
{"health":true} ~ WrongKind health
{"health":{"port":1}} ~ UnknownField port
{"health":{}} ~ MissingField balancer
{"health":{"balancer":1}} ~ WrongKind balancer
{"health":{"balancer":"l b"}} ~ OutOfRange balancer
{"health":{"balancer":"lb","online":1}} ~ MissingField backend
{"health":{"balancer":"lb","backend":80}} ~ WrongKind backend
{"health":{"balancer":"lb","backend":"10.0.0.1"}} ~ OutOfRange backend
{"health":{"balancer":"lb","backend":"10.0.0.1:080"}} ~ OutOfRange backend
{"health":{"balancer":"lb","backend":"10.0.0.1:80"}} ~ MissingField online
{"health":{"balancer":"lb","backend":"10.0.0.1:80","online":1}} ~ WrongKind online
{"clock":{"seconds":0}} ~ ok
{"clock":{"seconds":1000000}} ~ ok
{"clock":1} ~ WrongKind clock
{"clock":{"minutes":1}} ~ UnknownField minutes
{"clock":{}} ~ MissingField seconds
{"clock":{"seconds":-0}} ~ WrongKind seconds
{"clock":{"seconds":1e3}} ~ WrongKind seconds
{"clock":{"seconds":"1"}} ~ WrongKind seconds
{"clock":{"seconds":1000001}} ~ OutOfRange seconds
{"inject":{"port":"p1","frame":"0a00000000020a000000000188b56869"}} ~ ok
{"inject":{"port":"p1","frame":"0aFf"}} ~ ok
{"inject":{"port":"p1","frame":""}} ~ ok
{"inject":"00"} ~ WrongKind inject
{"inject":{"x":1}} ~ UnknownField x
{"inject":{"frame":"0"}} ~ MissingField port
{"inject":{"port":0}} ~ WrongKind port
{"inject":{"port":"p/1"}} ~ OutOfRange port
{"inject":{"port":"p1"}} ~ MissingField frame
{"inject":{"port":"p1","frame":0}} ~ WrongKind frame
{"inject":{"port":"p1","frame":"0"}} ~ OutOfRange frame
{"inject":{"port":"p1","frame":"0g"}} ~ OutOfRange frame
{"packet":{"port":"p1","frame":"0a00000000020a000000000188b56869"}} ~ ok
{"packet":{"port":"p1","frame":"0aFf"}} ~ ok
{"packet":{"port":"p1","frame":""}} ~ ok
{"packet":"00"} ~ WrongKind packet
{"packet":{"x":1}} ~ UnknownField x
{"packet":{"frame":"0"}} ~ MissingField port
{"packet":{"port":0}} ~ WrongKind port
{"packet":{"port":"p/1"}} ~ OutOfRange port
{"packet":{"port":"p1"}} ~ MissingField frame
{"packet":{"port":"p1","frame":0}} ~ WrongKind frame
{"packet":{"port":"p1","frame":"0"}} ~ OutOfRange frame
{"packet":{"port":"p1","frame":"0g"}} ~ OutOfRange frame
{"deliver":{"frame":0}} ~ ok
{"deliver":{"frame":18446744073709551615}} ~ ok
{"deliver":1} ~ WrongKind deliver
{"deliver":{"frame":1,"port":1}} ~ UnknownField port
{"deliver":{}} ~ MissingField frame
{"deliver":{"frame":-1}} ~ WrongKind frame
{"deliver":{"frame":18446744073709551616}} ~ WrongKind frame
{"lose":{"frame":0}} ~ ok
{"lose":{"frame":18446744073709551615}} ~ ok
{"lose":1} ~ WrongKind lose
{"lose":{"frame":1,"port":1}} ~ UnknownField port
{"lose":{}} ~ MissingField frame
{"lose":{"frame":-1}} ~ WrongKind frame
{"lose":{"frame":18446744073709551616}} ~ WrongKind frame
{"repeat":{"frame":0}} ~ ok
{"repeat":{"frame":18446744073709551615}} ~ ok
{"repeat":1} ~ WrongKind repeat
{"repeat":{"frame":1,"port":1}} ~ UnknownField port
{"repeat":{}} ~ MissingField frame
{"repeat":{"frame":-1}} ~ WrongKind frame
{"repeat":{"frame":18446744073709551616}} ~ WrongKind frame
{"drain":{}} ~ ok
{"drain":[]} ~ WrongKind drain
{"drain":null} ~ WrongKind drain
{"drain":{"frame":1}} ~ UnknownField frame"#;

/// Whole lines.
pub(crate) const LINES: &str = r#"{ ~ BadJson
[] ~ NotObject
{"edit":[]} ~ OutOfRange edit
{"lose":{"frame":-1}} ~ WrongKind frame
{"edit":[{"add":"switch","name":"a b"}]} ~ OutOfRange name
{"edit":[{"add":"acl","name":"x","switch":"s0","direction":"from-lport","priority":1000,"match":"ip4 && tcp || udp","action":"drop"}]} ~ BadMatch MixedAndOr(11)
 ~ BadJson
  ~ BadJson
null ~ NotObject
"drain" ~ NotObject
{} ~ UnknownEvent
{"nothing":{}} ~ UnknownEvent
{"Drain":{}} ~ UnknownEvent
{"drain":{},"edit":[]} ~ UnknownEvent
{"drain":{},"drain":{}} ~ ok
{"drain":5,"drain":{}} ~ ok
 { "drain" :  { } }  ~ ok
{"\u0064rain":{}} ~ ok
{"drain":{"\u0061":1,"b":1}} ~ UnknownField a
{'drain':{}} ~ BadJson
{"drain":{},} ~ BadJson
{"drain":{}}{} ~ BadJson
{"drain":{"a":01}} ~ BadJson
{"drain":{"a":"\ud800"}} ~ BadJson
{"drain":{"a":1e400}} ~ BadJson
{"clock":{"seconds":1,"seconds":"2"}} ~ WrongKind seconds
{"clock":{"seconds":"2","seconds":1}} ~ ok"#;

/// Lines with each field of each kind and event, and what is read of them.
pub(crate) const VALUES: &str =
    r#"{"edit":[{"add":"switch","name":"s0"},{"remove":"acl","name":"a0"},{"set":"router","name":"r0"}]} ~ Edit([Add(Switch(Switch { name: s0, birth: Birth(0) })), Remove { kind: Acl, name: a0 }, Set { kind: Router, name: r0, change: Router }])
{"edit":[{"add":"router","name":"r0","chassis":"hv1"},{"add":"router","name":"r1"}]} ~ Edit([Add(Router(Router { name: r0, birth: Birth(0), chassis: Some(hv1) })), Add(Router(Router { name: r1, birth: Birth(0), chassis: None }))])
{"edit":[{"add":"router_port","name":"rp","router":"r0","mac":"0a:0b:0c:0d:0e:0f","networks":["10.0.0.254/24","1.2.3.4/0"],"peer":"rq"}]} ~ Edit([Add(RouterPort(RouterPort { name: rp, birth: Birth(0), router: r0, mac: Mac([10, 11, 12, 13, 14, 15]), networks: [Cidr { addr: Ip4(167772414), len: 24 }, Cidr { addr: Ip4(16909060), len: 0 }], peer: Some(rq) }))])
{"edit":[{"add":"switch_port","name":"p1","switch":"s0"}]} ~ Edit([Add(SwitchPort(SwitchPort { name: p1, birth: Birth(0), switch: s0, kind: Virtual, router_port: None, addresses: [], port_security: [], enabled: true }))])
{"edit":[{"enabled":false,"port_security":["0a:00:00:00:00:01","0a:00:00:00:00:02 10.0.0.1 10.0.0.0/24"],"addresses":["router","unknown","0a:00:00:00:00:01 10.0.0.1 10.0.0.2"],"router_port":"rp","type":"router","switch":"s0","name":"p1","add":"switch_port"}]} ~ Edit([Add(SwitchPort(SwitchPort { name: p1, birth: Birth(0), switch: s0, kind: Router, router_port: Some(rp), addresses: [Router, Unknown, Ether { mac: Mac([10, 0, 0, 0, 0, 1]), ips: [Ip4(167772161), Ip4(167772162)] }], port_security: [SecurityEntry { mac: Mac([10, 0, 0, 0, 0, 1]), ips: [] }, SecurityEntry { mac: Mac([10, 0, 0, 0, 0, 2]), ips: [Cidr { addr: Ip4(167772161), len: 32 }, Cidr { addr: Ip4(167772160), len: 24 }] }], enabled: false }))])
{"edit":[{"add":"address_set","name":"as","addresses":["10.0.0.1","10.0.0.0/24","0a:00:00:00:00:01"]}]} ~ Edit([Add(AddressSet(AddressSet { name: as, birth: Birth(0), addresses: [Ip(Cidr { addr: Ip4(167772161), len: 32 }), Ip(Cidr { addr: Ip4(167772160), len: 24 }), Ether(Mac([10, 0, 0, 0, 0, 1]))] }))])
{"edit":[{"add":"port_group","name":"pg","ports":["p2","p1"]}]} ~ Edit([Add(PortGroup(PortGroup { name: pg, birth: Birth(0), ports: [p2, p1] }))])
{"edit":[{"add":"acl","name":"a0","switch":"s0","direction":"from-lport","priority":7,"match":"1","action":"allow-related"}]} ~ Edit([Add(Acl(Acl { name: a0, birth: Birth(0), switch: Some(s0), port_group: None, direction: FromLport, priority: 7, matching: Const(true), action: AllowRelated }))])
{"edit":[{"add":"acl","name":"a0","port_group":"pg","direction":"to-lport","priority":32767,"match":"!0","action":"reject"}]} ~ Edit([Add(Acl(Acl { name: a0, birth: Birth(0), switch: None, port_group: Some(pg), direction: ToLport, priority: 32767, matching: Not(Const(false)), action: Reject }))])
{"edit":[{"add":"route","name":"x","router":"r0","prefix":"10.0.0.0/8","nexthop":"192.0.2.1"}]} ~ Edit([Add(Route(Route { name: x, birth: Birth(0), router: r0, prefix: Cidr { addr: Ip4(167772160), len: 8 }, nexthop: Ip4(3221225985) }))])
{"edit":[{"add":"nat","name":"x","router":"r0","type":"dnat_and_snat","external_ip":"192.0.2.1","logical_ip":"10.0.0.1"}]} ~ Edit([Add(Nat(Nat { name: x, birth: Birth(0), router: r0, kind: DnatAndSnat, external_ip: Ip4(3221225985), logical_ip: Cidr { addr: Ip4(167772161), len: 32 } }))])
{"edit":[{"add":"load_balancer","name":"lb","protocol":"udp","vips":{"10.0.0.2:80":"","10.0.0.1:443":"10.0.0.9:1,10.0.0.8:2","10.0.0.1:80":""},"switches":["s1","s0"],"routers":["r0"]}]} ~ Edit([Add(LoadBalancer(LoadBalancer { name: lb, birth: Birth(0), protocol: Udp, vips: [Vip { at: Backend { ip: Ip4(167772161), port: 80 }, backends: [] }, Vip { at: Backend { ip: Ip4(167772161), port: 443 }, backends: [Backend { ip: Ip4(167772169), port: 1 }, Backend { ip: Ip4(167772168), port: 2 }] }, Vip { at: Backend { ip: Ip4(167772162), port: 80 }, backends: [] }], switches: [s1, s0], routers: [r0] }))])
{"edit":[{"add":"load_balancer","name":"lb","vips":{}}]} ~ Edit([Add(LoadBalancer(LoadBalancer { name: lb, birth: Birth(0), protocol: Tcp, vips: [], switches: [], routers: [] }))])
{"edit":[{"add":"static_mac","name":"x","port":"rp","ip":"10.0.0.1","mac":"0A:00:00:00:00:FF"}]} ~ Edit([Add(StaticMac(StaticMac { name: x, birth: Birth(0), port: rp, ip: Ip4(167772161), mac: Mac([10, 0, 0, 0, 0, 255]) }))])
{"edit":[{"set":"router_port","name":"rp","mac":"0a:00:00:00:00:01","peer":"rq"}]} ~ Edit([Set { kind: RouterPort, name: rp, change: RouterPort { mac: Some(Mac([10, 0, 0, 0, 0, 1])), networks: None, peer: Some(rq) } }])
{"edit":[{"set":"switch_port","name":"p1","enabled":false,"addresses":[]}]} ~ Edit([Set { kind: SwitchPort, name: p1, change: SwitchPort { addresses: Some([]), port_security: None, enabled: Some(false) } }])
{"edit":[{"set":"address_set","name":"as","addresses":["10.0.0.1"]}]} ~ Edit([Set { kind: AddressSet, name: as, change: AddressSet { addresses: Some([Ip(Cidr { addr: Ip4(167772161), len: 32 })]) } }])
{"edit":[{"set":"port_group","name":"pg","ports":["p1"]}]} ~ Edit([Set { kind: PortGroup, name: pg, change: PortGroup { ports: Some([p1]) } }])
{"edit":[{"set":"acl","name":"a0","match":"1","priority":0}]} ~ Edit([Set { kind: Acl, name: a0, change: Acl { priority: Some(0), matching: Some(Const(true)), action: None } }])
{"edit":[{"set":"route","name":"x","nexthop":"10.0.0.1"}]} ~ Edit([Set { kind: Route, name: x, change: Route { prefix: None, nexthop: Some(Ip4(167772161)) } }])
{"edit":[{"set":"nat","name":"x","logical_ip":"10.0.0.0/24"}]} ~ Edit([Set { kind: Nat, name: x, change: Nat { external_ip: None, logical_ip: Some(Cidr { addr: Ip4(167772160), len: 24 }) } }])
{"edit":[{"set":"load_balancer","name":"lb","routers":[],"switches":["s0"]}]} ~ Edit([Set { kind: LoadBalancer, name: lb, change: LoadBalancer { vips: None, switches: Some([s0]), routers: Some([]) } }])
{"edit":[{"set":"static_mac","name":"x","mac":"0a:00:00:00:00:01"}]} ~ Edit([Set { kind: StaticMac, name: x, change: StaticMac { ip: None, mac: Some(Mac([10, 0, 0, 0, 0, 1])) } }])
{"bind":{"chassis":"hv1","port":"p1"}} ~ Bind { port: p1, chassis: hv1 }
{"unbind":{"port":"p1"}} ~ Unbind { port: p1 }
{"chassis":{"add":"hv1"}} ~ AddChassis(hv1)
{"chassis":{"remove":"hv1"}} ~ RemoveChassis(hv1)
{"keys":{"datapaths":16777215,"ports":32767}} ~ Keys { datapaths: 16777215, ports: 32767 }
{"health":{"balancer":"lb","backend":"10.0.0.1:80","online":false}} ~ Health { balancer: lb, backend: Backend { ip: Ip4(167772161), port: 80 }, online: false }
{"clock":{"seconds":1000000}} ~ Clock { seconds: 1000000 }
{"clock":{"seconds":1,"seconds":2}} ~ Clock { seconds: 2 }
{"inject":{"port":"p1","frame":"0afF"}} ~ Inject { port: p1, frame: [10, 255] }
{"packet":{"port":"p1","frame":""}} ~ Packet { port: p1, frame: [] }
{"deliver":{"frame":18446744073709551615}} ~ Deliver { frame: 18446744073709551615 }
{"lose":{"frame":0}} ~ Lose { frame: 0 }
{"repeat":{"frame":7}} ~ Repeat { frame: 7 }
{"drain":{}} ~ Drain"#;
